//! Paths and their cleaning, as cleanname(2).

ghost use Rattle.std.specs.Prelude.{◌≡◌, map, IfOk, string_bytes};
ghost use Rattle.p9_clean.specs.Path.{cleaned, cleaned_elements, elements_of, path_of};
ghost use Rattle.p9_clean.specs.Path.{shortened};

use p9_base::NoMemory;
use std::alloc::Allocator;

/// The shortest path that names the same file, found by the text alone, as cleanname(2).
///
/// Repeated slashes become one, `.` goes, and a name followed by `..` goes with it. A `..` at the
/// start goes where the path begins with a slash, and stays where it does not. A path of which
/// nothing is left is `/` if it begins with a slash, else `.`. No slash is at the end of any
/// other.
///
/// The only error is a failed allocation.
pub fn clean<A: Allocator + Copy>(alloc: A, path: &str) -> Result<String<A>, NoMemory>
    ensures { IfOk result (λ text. string_bytes text ≡ cleaned path.now) }
{
    let kept = cleaned_elements(alloc, path)?;
    path_text(alloc, path.starts_with('/'), &kept)
}

/// The elements of a path, in order: what is between its slashes, without `.` and what is
/// empty. Those of a cleaned path are its names, and the `..` at its start if it has no slash
/// there.
///
/// The only error is a failed allocation.
pub fn elements<A: Allocator + Copy>(alloc: A, path: &str) -> Result<Vec<&str, A>, NoMemory>
    ensures { IfOk result (λ found. map (λ e. e.now) found.items ≡ elements_of path.now) }
{
    let found = path
        .split('/')
        .filter(|component| !component.is_empty() && *component != ".")
        .collect(alloc)?;
    Ok(found)
}

/// The elements of the cleaned path, in order: of one that begins with a slash the names alone.
///
/// The only error is that an allocation fails.
pub fn cleaned_elements<A: Allocator + Copy>(alloc: A, path: &str) -> Result<Vec<&str, A>, NoMemory>
    ensures { IfOk result (λ found. map (λ e. e.now) found.items ≡ cleaned_elements path.now) }
{
    let elements = elements(alloc, path)?;
    shorten(alloc, path.starts_with('/'), &elements)
}

// What is left of the elements of a path: a `..` takes back the name before it, and goes at the
// root.
fn shorten<'a, A: Allocator + Copy>(
    alloc: A,
    rooted: bool,
    elements: &[&'a str],
) -> Result<Vec<&'a str, A>, NoMemory>
    ensures { IfOk result (λ kept. map (λ e. e.now) kept.items
        ≡ shortened rooted (map (λ e. e.now) elements.now)) }
{
    let mut kept: Vec<&'a str, A> = Vec::new(alloc);
    for element in elements {
        match kept.last() {
            _ if *element != ".." => kept.push(*element)?,
            Some(last) if *last != ".." => {
                kept.pop();
            }
            None if rooted => {}
            _ => kept.push(*element)?,
        }
    }
    Ok(kept)
}

// The path of these elements.
fn path_text<A: Allocator + Copy>(
    alloc: A,
    rooted: bool,
    elements: &[&str],
) -> Result<String<A>, NoMemory>
    ensures { IfOk result (λ text. string_bytes text
        ≡ path_of rooted (map (λ e. e.now) elements.now)) }
{
    let Some((first, others)) = elements.split_first() else {
        let text = String::from_str(alloc, if rooted { "/" } else { "." })?;
        return Ok(text);
    };
    let mut text = String::from_str(alloc, if rooted { "/" } else { "" })?;
    text.push_str(first)?;
    for element in others {
        text.push('/')?;
        text.push_str(element)?;
    }
    Ok(text)
}
