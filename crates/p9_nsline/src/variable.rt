//! Variables in the words of a namespace file, as namespace(6).

ghost use Rattle.std.specs.Prelude.{◌≡◌, ◌==◌, IfOk, OnOk, ◌++◌, find, map, string_bytes};
ghost use Rattle.std.specs.List.{slice_split};
ghost use Rattle.std.specs.Option.{option_copied};
ghost use Rattle.std.specs.Str.{bytes_eq};
ghost use Rattle.p9_base.specs.Variable.{variables_of};
ghost use Rattle.p9_nsline.specs.Variable.{dollar, expanded, value_of, with_value};

use p9_base::NoMemory;
use std::alloc::Allocator;

/// The word with the variables' values put in: `$name`, which ends at a `/`, a `$` or the word's
/// end. A name that no variable has is empty text, and of several variables of a name the first
/// counts. What is put in is not looked at again.
///
/// The only error is a failed allocation.
pub(crate) fn expand<A: Allocator + Copy>(
    alloc: A,
    word: &str,
    vars: &[(String<A>, String<A>)],
) -> Result<String<A>, NoMemory>
    ensures { IfOk result (λ text. string_bytes text ≡ expanded (variables_of vars.now) word.now) }
{
    let pieces = pieces(alloc, word)?;
    let Some((first, others)) = pieces.split_first() else {
        return Ok(String::new(alloc));
    };
    let mut text = String::from_str(alloc, first)?;
    for piece in others {
        push_expanded(&mut text, piece, vars)?;
    }
    Ok(text)
}

// What is between the dollars of a word.
fn pieces<A: Allocator + Copy>(alloc: A, word: &str) -> Result<Vec<&str, A>, NoMemory>
    ensures { IfOk result (λ found. map (λ p. p.now) found.items
        ≡ slice_split (λ b. b == dollar) word.now) }
{
    let found = word.split('$').collect(alloc)?;
    Ok(found)
}

// Adds what follows a dollar, with the value in the place of the name at its front.
fn push_expanded<A: Allocator + Copy>(
    text: &mut String<A>,
    piece: &str,
    vars: &[(String<A>, String<A>)],
) -> Result<(), NoMemory>
    ensures { OnOk result (string_bytes text.new
        ≡ string_bytes text.old ++ with_value (variables_of vars.now) piece.now) }
{
    match piece.split_once('/') {
        Some((name, rest)) => {
            text.push_str(value(vars, name))?;
            text.push_str("/")?;
            text.push_str(rest)?;
        }
        None => text.push_str(value(vars, piece))?,
    }
    Ok(())
}

// The value of the first variable of this name, or empty text.
fn value<'a, A: Allocator>(vars: &'a [(String<A>, String<A>)], name: &str) -> &'a str
    ensures { result.now ≡ value_of (variables_of vars.now) name.now }
{
    match variable(vars, name) {
        Some((_, value)) => value.as_str(),
        None => "",
    }
}

fn variable<'a, A: Allocator>(
    vars: &'a [(String<A>, String<A>)],
    name: &str,
) -> Option<&'a (String<A>, String<A>)>
    ensures { option_copied result ≡ find (λ var. bytes_eq (string_bytes var.0) name.now) vars.now }
{
    vars.iter().find(|var| is_named(var, name))
}

fn is_named<A: Allocator>(var: &(String<A>, String<A>), name: &str) -> bool
    ensures { result ≡ bytes_eq (string_bytes var.now.0) name.now }
{
    var.0.as_str() == name
}
