//! Paths from a server's root, and the directories that they lead to.

ghost use Rattle.std.specs.Prelude.{◌≡◌, IfOk, map, option_map};
ghost use Rattle.p9_world.specs.LastDir.{dir_from};
ghost use Rattle.p9_world.specs.Path.{dir_of, last_and_rest, names_among, names_of};

use p9_base::{Name, NoMemory};
use p9_clean::cleaned_elements;
use p9_tree::Tree;
use std::alloc::Allocator;

/// The names along a cleaned path, or `None` where it doesn't begin with a slash or has a name that
/// no file may have. The root has none. The only error is a failed allocation.
pub(crate) fn names_of<A: Allocator + Copy>(
    alloc: A,
    path: &str,
) -> Result<Option<Vec<Name, A>>, NoMemory>
    ensures { IfOk result (λ found. option_map (λ names. names.items) found ≡ names_of path.now) }
{
    if !path.starts_with('/') {
        return Ok(None);
    }
    let elements = cleaned_elements(alloc, path)?;
    names_among(alloc, elements.as_slice())
}

// The elements as names, if each may name a file.
fn names_among<A: Allocator + Copy>(
    alloc: A,
    elements: &[&str],
) -> Result<Option<Vec<Name, A>>, NoMemory>
    ensures { IfOk result (λ found. option_map (λ names. names.items) found
        ≡ names_among (map (λ e. e.now) elements.now)) }
{
    let mut names = Vec::new(alloc);
    for element in elements {
        let Some(name) = Name::new(element) else {
            return Ok(None);
        };
        names.push(name)?;
    }
    Ok(Some(names))
}

/// Takes the last of some names out, and returns it. Those before it stay.
pub(crate) fn take_last<A: Allocator + Copy>(names: &mut Vec<Name, A>) -> Option<Name>
    ensures { option_map (λ name. (name, names.new.items)) result
        ≡ last_and_rest names.old.items }
{
    names.pop()
}

/// The number of the directory that the names lead to, from the root on.
pub(crate) fn dir_of<T: Tree>(tree: &T, names: &[Name]) -> Option<u64>
    ensures { result ≡ dir_of names.now (T.state tree.now) }
{
    dir_from(tree, 0, names)
}

/// The number of the directory that the names lead to, from the node of this number on.
pub(crate) fn dir_from<T: Tree>(tree: &T, from: u64, names: &[Name]) -> Option<u64>
    ensures { result ≡ dir_from from names.now (T.state tree.now) }
{
    let mut number = from;
    for name in names {
        number = tree.child(number, name)?.number();
    }
    match tree.node(number) {
        Some(node) if node.is_dir() => Some(number),
        _ => None,
    }
}
