//! The sealing of an input.

ghost use Rattle.std.specs.Prelude.{◌≡◌, IfErr, IfOk, None, true};
ghost use Rattle.std.specs.Str.{is_utf8};
ghost use Rattle.std.specs.String.{string_bytes};
ghost use Rattle.p9_cert.specs.Rows.{IsCertificate};
ghost use Rattle.p9_cert.specs.Text.{certificate_text};
ghost use Rattle.p9_seal.specs.Error.{vacuity_against};
ghost use Rattle.p9_seal.specs.Sealing.{IsSealError, IsSealable, IsSealed, IsUnsealed, IsWished, IsYes};
ghost use Rattle.p9_seal.specs.Text.{sealed_text};

use crate::error::{SealError, vacuity_against};
use crate::text::with_certificate;
use crate::wishes::{Wishes, change_against};
use p9_base::NoMemory;
use p9_cert::{Certificate, write_cert};
use p9_judge::{Verdict, judge};
use p9_prepared::{NameSpace, Refusal, is_blank_input, name_space_of};
use p9_tree::Tree;
use std::alloc::Allocator;

/// The input with the judge's certificate as its certificate section, so that it can be verified,
/// played over a guard, and served. The world's servers are kept in trees of this type meanwhile.
///
/// A `%% cert` section that is there is replaced, whatever it has. Else the section is put before
/// the script, or at the end. All other lines are as they were; each line has a newline.
///
/// # Errors
///
/// 1. The input has nothing but blanks, tabs and newlines: [`SealError::Empty`]. The commands of p9
///    would take it as the sample world.
/// 2. The input's first fault, as [`prepare`] has it, but for those of the old certificate, which is
///    not read: [`SealError::Refused`].
/// 3. What is hidden is within reach: [`SealError::No`].
/// 4. Unless it is wished [anyway](Wishes::anyway), a yes that says little: [`SealError::Vacuous`].
/// 5. Where a [fixed](Wishes::fixed) name space is wished, the first node that some listed user can
///    change: [`SealError::Changeable`].
///
/// Where an allocation fails, the error is [`SealError::NoMemory`] in the place of any of these.
pub fn seal<T: Tree>(
    alloc: T::Alloc,
    input: &[u8],
    wishes: Wishes,
) -> Result<String<T::Alloc>, SealError<T::Alloc>>
    ensures ok { IfOk result (λ output. IsSealed input.now wishes (string_bytes output)) }
    ensures err { IfErr result (IsSealError input.now wishes) }
{
    if is_blank_input(input) {
        return Err(SealError::Empty);
    }
    let Ok(text) = str::from_utf8(input) else {
        return Err(SealError::Refused(Refusal::NotUtf8));
    };
    let certificate = certificate_of::<T>(alloc, text, wishes)?;
    Ok(sealed(alloc, text, &certificate)?)
}

// The judge's certificate over the name space of an input, if the verdict is a yes as it is wished.
fn certificate_of<T: Tree>(
    alloc: T::Alloc,
    text: &str,
    wishes: Wishes,
) -> Result<Certificate<T::Alloc>, SealError<T::Alloc>>
    ensures ok { IfOk result (IsSealable text.now wishes) }
    ensures err { IfErr result (IsSealError text.now wishes) }
{
    let space = name_space_of::<T>(alloc, text.as_bytes())?;
    let certificate = certificate_over(alloc, &space, wishes);
    space.discard();
    certificate
}

// The judge's certificate over a name space, if the verdict is a yes as it is wished.
fn certificate_over<T: Tree>(
    alloc: T::Alloc,
    space: &NameSpace<T>,
    wishes: Wishes,
) -> Result<Certificate<T::Alloc>, SealError<T::Alloc>>
    ensures ok { IfOk result (IsWished space.now wishes) }
    ensures err { IfErr result (IsUnsealed space.now wishes) }
{
    match judge(alloc, &space.world, &space.table)? {
        Verdict::No(breach) => Err(SealError::No(breach)),
        Verdict::Yes(certificate) => match vacuity_against(wishes.anyway, space) {
            Some(vacuity) => Err(SealError::Vacuous(vacuity)),
            None => fixed_certificate(alloc, space, wishes, certificate),
        },
    }
}

// The certificate of a yes, unless a fixed name space is wished and some listed user can change it.
fn fixed_certificate<T: Tree>(
    alloc: T::Alloc,
    space: &NameSpace<T>,
    wishes: Wishes,
    certificate: Certificate<T::Alloc>,
) -> Result<Certificate<T::Alloc>, SealError<T::Alloc>>
    requires yes { IsYes space.now certificate }
    requires telling { vacuity_against wishes.anyway space.now ≡ None }
    ensures ok { IfOk result (IsWished space.now wishes) }
    ensures err { IfErr result (IsUnsealed space.now wishes) }
{
    match change_against(alloc, wishes.fixed, space, &certificate)? {
        Some(change) => Err(SealError::Changeable(change)),
        None => Ok(certificate),
    }
}

// The input with this certificate.
fn sealed<A: Allocator + Copy>(
    alloc: A,
    text: &str,
    certificate: &Certificate<A>,
) -> Result<String<A>, NoMemory>
    ensures written { IfOk result (λ output.
        string_bytes output ≡ sealed_text text.now (certificate_text certificate.now)) }
    ensures sound { IsCertificate certificate.now }
    ensures utf8 { IfOk result (λ output. is_utf8 (string_bytes output) ≡ true) }
{
    certificate.well_formed();
    let certificate = write_cert(alloc, certificate)?;
    let output = with_certificate(alloc, text, certificate.as_str())?;
    let _text = output.as_str();
    Ok(output)
}
