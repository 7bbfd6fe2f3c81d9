//! An input with its certificate.

ghost use Rattle.std.specs.Prelude.{◌≡◌, ◌++◌, ℕ, IfOk, List, OnErr, OnOk, codes};
ghost use Rattle.clap.specs.Matches.{found_of};
ghost use Rattle.p9_inputs.specs.Added.{IsAsBefore};
ghost use Rattle.p9_inputs.specs.Sealed.{AreWished, IsReported, IsSealing, IsWhyNot};

use crate::shapes::NAME;
use clap::ArgMatches;
use p9_base::NoMemory;
use p9_explain::{explain, explain_change};
use p9_prepared::status::{DONE, REFUSED};
use p9_seal::{SealError, Wishes};
use p9_tree::Tree;
use std::alloc::Allocator;

/// Seals an input: appends it to `out` with the judge's certificate in its place, and returns 0. Where it
/// is not sealed, it returns 1, and `err` gets a line that says why; and after the line the way to what is
/// hidden as [`explain`](crate::explain) has it, or what a listed user can change, where that is why. The
/// servers are kept in trees of this type meanwhile.
///
/// Of the options `anyway` and `fixed` are what is [wished](Wishes), and `name` names the input in what is
/// explained.
///
/// Where an allocation fails, it returns [`NoMemory`], and `out` and `err` are as before.
pub fn seal<T: Tree>(
    input: &[u8],
    options: &ArgMatches<'_>,
    out: &mut Vec<u8, T::Alloc>,
    err: &mut Vec<u8, T::Alloc>,
) -> Result<u8, NoMemory>
    ensures ok { IfOk result (λ status. IsSealing T.Alloc (found_of options.now) input.now status
        out.old.items out.new.items err.old.items err.new.items) }
    ensures no_memory { OnErr result (IsAsBefore out.old.items out.new.items err.old.items
        err.new.items) }
{
    match p9_seal::seal::<T>(*out.allocator(), input, wishes_in(options)) {
        Ok(text) => {
            out.extend_from_slice(text.as_bytes())?;
            Ok(DONE)
        }
        Err(error) => {
            report::<T>(name_in(options), input, &error, err)?;
            Ok(REFUSED)
        }
    }
}

// What the options wish.
fn wishes_in(options: &ArgMatches<'_>) -> Wishes
    ensures { AreWished (found_of options.now) result }
{
    Wishes {
        anyway: options.get_flag("anyway"),
        fixed: options.get_flag("fixed"),
    }
}

/// The name of the input that the options give, or else [`NAME`].
pub(crate) fn name_in<'a>(options: &ArgMatches<'a>) -> &'a str {
    options.get_str("name").unwrap_or(NAME)
}

// Reports why an input is not sealed.
fn report<T: Tree>(
    name: &str,
    input: &[u8],
    error: &SealError<T::Alloc>,
    err: &mut Vec<u8, T::Alloc>,
) -> Result<(), NoMemory>
    ensures ok { OnOk result (IsReported input.now error.now err.old.items err.new.items) }
    ensures no_memory { OnErr result (err.new.items ≡ err.old.items) }
{
    let why = why_not::<T>(*err.allocator(), name, input, error)?;
    err.extend_from_slice(why.as_slice())?;
    Ok(())
}

// Why an input is not sealed: the way to what is hidden is explained, and what can be changed.
fn why_not<T: Tree>(
    alloc: T::Alloc,
    name: &str,
    input: &[u8],
    error: &SealError<T::Alloc>,
) -> Result<Vec<u8, T::Alloc>, NoMemory>
    ensures { IfOk result (λ why. IsWhyNot input.now error.now why.items) }
{
    let mut why = line_of(alloc, error)?;
    match error {
        SealError::No(_) => {
            let _ = explain::<T>(name, input, &mut why)?;
            Ok(why)
        }
        SealError::Changeable(change) => {
            explain_change::<T>(name, input, change, &mut why)?;
            Ok(why)
        }
        SealError::NoMemory => Err(NoMemory),
        _ => Ok(why),
    }
}

// The line of an error, with a newline.
fn line_of<A: Allocator + Copy>(alloc: A, error: &SealError<A>) -> Result<Vec<u8, A>, NoMemory>
    ensures { IfOk result (λ line. (text : List ℕ) × (line.items ≡ text ++ codes "\n")) }
{
    let text = error.text(alloc)?;
    Ok(format!(in alloc; "{text}\n")?.into_bytes())
}
