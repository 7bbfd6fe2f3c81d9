//! An input that is prepared: all that the commands and the server take from it.

ghost use Rattle.std.specs.Prelude.{◌≡◌, IfErr, IfOk, Ok, OnOk, map};
ghost use Rattle.p9_cert.specs.declared.gap.Gap.{Gap};
ghost use Rattle.p9_prepared.specs.Bundle.{Texts, bundle_view};
ghost use Rattle.p9_prepared.specs.NameSpace.{NameSpace as NameSpaceOf};
ghost use Rattle.p9_prepared.specs.Prepared.{IsPrepareError, IsReported, gap_in, opened};
ghost use Rattle.p9_prepared.specs.Prepared.{prepared_of, prepared_with, rest_in, space_of};
ghost use Rattle.p9_prepared.specs.Prepared.{space_with};
ghost use Rattle.p9_prepared.specs.Refusal.{IsStop};
ghost use Rattle.p9_prepared.specs.Statements.{SameStatements};
ghost use Rattle.p9_export.specs.Event.{event_view};

use crate::bundle::Bundle;
use crate::input::{certificate, script, sections, text, text_of};
use crate::name_space::NameSpace;
use crate::refusal::{Refusal, Stop, print_stop};
use crate::report::print_reports;
use p9_base::NoMemory;
use p9_cert::{Certificate, Gap, verify};
use p9_export::Event;
use p9_nsfile::OpFault;
use p9_tree::Tree;
use std::alloc::Allocator;
use std::marker::Model;

/// An input that is prepared: its name space, and what its other sections hold.
///
/// Contracts see the certificate as its rows, and the events as the definition's.
#[derive(Drop)]
pub struct Prepared<T: Tree> {
    /// The world with its hidden directories, the mount table, and what failed in its making.
    pub space: NameSpace<T>,
    /// The certificate, where the input has one. That it is closed is not known.
    pub certificate: Option<Certificate<T::Alloc>>,
    /// The events of the script, in order.
    pub events: Vec<Event<T::Alloc>, T::Alloc>,
}

impl<T: Tree> Model for Prepared<T> {
    ghost use Rattle.std.specs.Prelude.{map};
    ghost use Rattle.p9_export.specs.Event.{event_view};
    ghost use Rattle.p9_prepared.specs.Prepared.{Prepared as PreparedOf};

    ghost Value = { PreparedOf };

    ghost view = { λ p. record {
      space = p.space;
      rows = p.certificate;
      events = map event_view p.events.items;
    } };
}

/// What is needed of an input beside its name space.
#[derive(Clone, Copy, Debug, PartialEq, Eq)]
pub enum Needs {
    /// Nothing: the input may have a certificate.
    Nothing,
    /// A certificate: an input without one is refused.
    Certificate,
}

/// Why an input is not prepared.
#[derive(Drop)]
pub struct PrepareError<A: Allocator> {
    /// What failed in its namespace file, with the line of each: none where that wasn't run.
    pub reports: Vec<(u64, OpFault), A>,
    /// Its first fault, or that an allocation failed.
    pub stop: Stop,
}

/// Prepares an input: reads its sections, makes its world, and runs its namespace file over that.
///
/// # Errors
///
/// The first of these faults that the input has, as a [`Refusal`]. `L` is the number of a line,
/// from 1: of the input in a bad section, and else of its section.
///
/// 1. It is not UTF-8: [`Refusal::NotUtf8`].
/// 2. It is no bundle, and `L` is its first bad line: [`Refusal::BadSection`].
/// 3. The world section has a bad line, or its world is bad as a whole, with 0 for `L`:
///    [`Refusal::BadWorld`]. Without that section the world is the sample world.
/// 4. The namespace section has a line of bad form: [`Refusal::BadOperation`]. An operation of good
///    form that fails is no fault: it changes nothing, and is one of the reports.
/// 5. The certificate section has a bad line: [`Refusal::BadCertificate`].
/// 6. A certificate is needed, and there is no such section: [`Refusal::NoCertificate`].
/// 7. The script section has a bad line: [`Refusal::BadEvent`].
///
/// Of the last three faults the error has the reports of the namespace file, of the others none.
/// Where an allocation fails, the error is [`Stop::NoMemory`] in the place of any fault.
pub fn prepare<T: Tree>(
    alloc: T::Alloc,
    input: &[u8],
    needs: Needs,
) -> Result<Prepared<T>, PrepareError<T::Alloc>>
    ensures ok { IfOk result (λ prepared. prepared_of needs input.now ≡ Ok prepared) }
    ensures refused { IfErr result (IsPrepareError (prepared_of needs input.now)) }
{
    match opened(alloc, input) {
        Ok((bundle, space)) => prepare_with(alloc, needs, &bundle, space),
        Err(stop) => Err(PrepareError {
            reports: Vec::new(alloc),
            stop,
        }),
    }
}

/// Prepares an input as [`prepare`] does, and reports what failed in its namespace file, and then its
/// first fault, a line each. It returns `None` where there is a fault. Where an allocation fails, it
/// returns [`NoMemory`], and a part of the lines may be there.
pub fn prepare_and_report<T: Tree>(
    input: &[u8],
    needs: Needs,
    err: &mut Vec<u8, T::Alloc>,
) -> Result<Option<Prepared<T>>, NoMemory>
    ensures { IfOk result (IsReported (prepared_of needs input.now) err.old.items err.new.items) }
{
    match prepare::<T>(*err.allocator(), input, needs) {
        Ok(prepared) => match print_reports(prepared.space.reports.as_slice(), err) {
            Ok(()) => Ok(Some(prepared)),
            Err(NoMemory) => {
                drop(prepared);
                Err(NoMemory)
            }
        },
        Err(PrepareError { reports, stop }) => {
            print_reports(reports.as_slice(), err)?;
            print_stop(stop, err)?;
            Ok(None)
        }
    }
}

/// The name space of an input, whose certificate is not read.
///
/// The errors are those of [`prepare`], without reports and but for those of the certificate. Where an
/// allocation fails, the error is [`Stop::NoMemory`] in the place of any fault.
pub fn name_space_of<T: Tree>(alloc: T::Alloc, input: &[u8]) -> Result<NameSpace<T>, Stop>
    ensures ok { IfOk result (λ space. space_of input.now ≡ Ok space) }
    ensures stop { IfErr result (IsStop (space_of input.now)) }
{
    match opened(alloc, input) {
        Ok((bundle, space)) => space_with(alloc, &bundle, space),
        Err(stop) => Err(stop),
    }
}

// A name space, where the script of its bundle is good.
fn space_with<T: Tree>(
    alloc: T::Alloc,
    bundle: &Bundle<'_>,
    space: NameSpace<T>,
) -> Result<NameSpace<T>, Stop>
    ensures ok { IfOk result (λ found. space_with (bundle_view bundle.now) space ≡ Ok found) }
    ensures stop { IfErr result (IsStop (space_with (bundle_view bundle.now) space)) }
{
    match test_script(alloc, bundle) {
        Ok(()) => Ok(space),
        Err(stop) => {
            space.discard();
            Err(stop)
        }
    }
}

// Whether the script of a bundle is good; its first bad line, where it is not.
fn test_script<A: Allocator + Copy>(alloc: A, bundle: &Bundle<'_>) -> Result<(), Stop>
    ensures ok { OnOk result ((space : NameSpaceOf)
        → space_with (bundle_view bundle.now) space ≡ Ok space) }
    ensures stop { IfErr result (λ stop. (space : NameSpaceOf)
        → IsStop (space_with (bundle_view bundle.now) space) stop) }
{
    match script(alloc, bundle) {
        Ok(_) => Ok(()),
        Err(stop) => Err(stop),
    }
}

// The sections of an input, and the name space that they describe.
fn opened<T: Tree>(alloc: T::Alloc, input: &[u8]) -> Result<(Bundle<'_>, NameSpace<T>), Stop>
    ensures ok { IfOk result (λ found. (texts : Texts)
        × (opened input.now ≡ Ok (texts, found.1)) × SameStatements (bundle_view found.0) texts) }
    ensures stop { IfErr result (IsStop (opened input.now)) }
{
    let Some(text) = text(input) else {
        return Err(Stop::Refused(Refusal::NotUtf8));
    };
    let bundle = sections(alloc, text)?;
    let space = NameSpace::read(alloc, text_of(bundle.world), text_of(bundle.ns))?;
    Ok((bundle, space))
}

// A name space with the other sections of its bundle.
fn prepare_with<T: Tree>(
    alloc: T::Alloc,
    needs: Needs,
    bundle: &Bundle<'_>,
    space: NameSpace<T>,
) -> Result<Prepared<T>, PrepareError<T::Alloc>>
    ensures ok { IfOk result (λ prepared.
        prepared_with needs (bundle_view bundle.now) space ≡ Ok prepared) }
    ensures refused { IfErr result
        (IsPrepareError (prepared_with needs (bundle_view bundle.now) space)) }
{
    match rest(alloc, needs, bundle) {
        Ok((certificate, events)) => Ok(Prepared {
            space,
            certificate,
            events,
        }),
        Err(stop) => {
            let NameSpace {
                world,
                table,
                reports,
            } = space;
            drop(world);
            drop(table);
            Err(PrepareError { reports, stop })
        }
    }
}

// The certificate and the events of a bundle, where the one is there if it is needed.
fn rest<A: Allocator + Copy>(
    alloc: A,
    needs: Needs,
    bundle: &Bundle<'_>,
) -> Result<(Option<Certificate<A>>, Vec<Event<A>, A>), Stop>
    ensures ok { IfOk result (λ found. rest_in needs (bundle_view bundle.now)
        ≡ Ok (found.0, map event_view found.1.items)) }
    ensures stop { IfErr result (IsStop (rest_in needs (bundle_view bundle.now))) }
{
    let certificate = certificate(alloc, needs, bundle)?;
    let events = script(alloc, bundle)?;
    Ok((certificate, events))
}

impl<T: Tree> Prepared<T> {
    /// Drops it. A caller in another crate that drops it so has no code of its own that drops its
    /// parts, and nothing to prove of them.
    pub fn discard(self) {}

    /// The first gap of the certificate, as [`verify`] returns it; none where there is no
    /// certificate.
    pub fn gap(&self) -> Option<Gap>
        ensures { result ≡ gap_in self.now }
    {
        match &self.certificate {
            Some(certificate) => verify(&self.space.world, &self.space.table, certificate).err(),
            None => None,
        }
    }
}
