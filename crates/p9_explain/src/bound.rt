//! Which line of a namespace file binds a node at a place.

use p9_base::{NoMemory, NodeRef, lines};
use p9_nsfile::{NsError, run_file};
use p9_space::MountTable;
use p9_tree::Tree;
use p9_world::World;
use std::alloc::{AllocError, Allocator};

/// The line of a namespace file, from 1, by which a node becomes a member of a place, where all its
/// lines make it one.
///
/// It is found by halves: before it the node is no member, and with it it is one. So of several such
/// lines it is any.
pub(crate) fn bind_line<T: Tree>(
    alloc: T::Alloc,
    world: &World<T>,
    text: &str,
    place: NodeRef,
    at: NodeRef,
) -> Result<Option<u64>, NoMemory> {
    let ends = line_ends(alloc, text)?;
    if !is_bound(alloc, world, text, place, at)? {
        return Ok(None);
    }
    let (mut without, mut with) = (0usize, ends.len());
    for _ in 0..u64::BITS {
        let middle = without.saturating_add(with.saturating_sub(without) / 2);
        if middle == without {
            break;
        }
        let front = front_of(text, ends.as_slice(), middle);
        if is_bound(alloc, world, front, place, at)? {
            with = middle;
        } else {
            without = middle;
        }
    }
    Ok(Some(with as u64))
}

// The ends of the lines of a text.
fn line_ends<A: Allocator + Copy>(alloc: A, text: &str) -> Result<Vec<usize, A>, AllocError> {
    let mut ends = Vec::new(alloc);
    let mut end = 0usize;
    for line in lines(alloc, text)?.as_slice() {
        end = end.saturating_add(line.len()).saturating_add(1);
        ends.push(end.min(text.len()))?;
    }
    Ok(ends)
}

// The first so many lines of a text, whose lines have these ends.
fn front_of<'a>(text: &'a str, ends: &[usize], count: usize) -> &'a str {
    let end = match count.checked_sub(1) {
        Some(last) => ends.get(last).copied().unwrap_or(0),
        None => 0,
    };
    text.get(..end).unwrap_or("")
}

// Whether these lines make a node a member of a place.
fn is_bound<T: Tree>(
    alloc: T::Alloc,
    world: &World<T>,
    text: &str,
    place: NodeRef,
    at: NodeRef,
) -> Result<bool, NoMemory> {
    let mut table = MountTable::new(alloc);
    let forest = &world.forest;
    match run_file(alloc, text, &world.vars, &world.servers, forest, &mut table) {
        Ok(_) => Ok(
            table
                .members(place)
                .as_slice()
                .iter()
                .any(|member| member.node == at),
        ),
        Err(NsError::BadLine { .. }) => Ok(false),
        Err(NsError::NoMemory) => Err(NoMemory),
    }
}
