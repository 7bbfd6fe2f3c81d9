//! The column at which the parentheses of a walk's lines begin.

use crate::teller::shown_path;
use p9_base::{NoMemory, NodeRef};
use p9_judge::Step;
use p9_shown::shown;
use p9_tree::Tree;
use p9_world::World;
use std::alloc::{AllocError, Allocator};

/// How many characters a text has.
pub(crate) fn width(text: &str) -> usize {
    text.chars().count()
}

/// How many characters the line of a step has before its path: two blanks, the user, and `passes`
/// between blanks.
pub(crate) fn prefix_width<A: Allocator + Copy>(
    alloc: A,
    step: &Step,
) -> Result<usize, AllocError> {
    let user = shown(alloc, step.user.as_str())?;
    Ok(width(user.as_str()).saturating_add(10))
}

/// How many characters the path of a node has.
pub(crate) fn path_width<T: Tree>(
    alloc: T::Alloc,
    world: &World<T>,
    at: NodeRef,
) -> Result<usize, NoMemory> {
    let path = shown_path(alloc, world, at)?;
    Ok(width(path.as_str()))
}

/// The column at which the parentheses of a walk to a member begin: two blanks after the longest user
/// and the longest path.
pub(crate) fn column_of<T: Tree>(
    alloc: T::Alloc,
    world: &World<T>,
    steps: &[Step],
    member: NodeRef,
) -> Result<usize, NoMemory> {
    let mut prefix = 2usize;
    let mut longest = path_width(alloc, world, member)?;
    for step in steps {
        prefix = prefix.max(prefix_width(alloc, step)?);
        longest = longest.max(path_width(alloc, world, step.member)?);
    }
    Ok(prefix.saturating_add(longest).saturating_add(2))
}
