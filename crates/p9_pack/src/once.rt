//! Texts without repetition.

ghost use Rattle.std.specs.Prelude.{◌≡◌, IfOk, map};
ghost use Rattle.std.specs.List.{list_any};
ghost use Rattle.std.specs.Str.{bytes_eq};
ghost use Rattle.p9_pack.specs.Once.{each_once};

use p9_base::NoMemory;
use std::alloc::Allocator;

/// The texts in order, without those that are there before. The only error is a failed allocation.
pub(crate) fn each_once<'a, A: Allocator + Copy>(
    alloc: A,
    texts: &[&'a str],
) -> Result<Vec<&'a str, A>, NoMemory>
    ensures { IfOk result (λ found. map (λ text. text.now) found.items
        ≡ each_once (map (λ text. text.now) texts.now)) }
{
    let mut found = Vec::new(alloc);
    for text in texts {
        if !has_text(found.as_slice(), text) {
            found.push(*text)?;
        }
    }
    Ok(found)
}

// Whether a text is among others.
fn has_text(others: &[&str], text: &str) -> bool
    ensures { result
        ≡ list_any (λ other. bytes_eq other text.now) (map (λ other. other.now) others.now) }
{
    for other in others {
        if *other == text {
            return true;
        }
    }
    false
}
