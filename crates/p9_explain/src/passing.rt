//! By which right a user passes a directory, in words.

ghost use Rattle.std.specs.Prelude.{◌≡◌, IfOk};
ghost use Rattle.std.specs.String.{string_bytes};
ghost use Rattle.p9_explain.specs.Passing.{passing_text, right_text};

use crate::right::who_of;
use p9_base::{NoMemory, NodeRef, User};
use p9_right::{Right, right_of};
use p9_shown::shown;
use p9_tree::Tree;
use p9_world::World;
use std::alloc::Allocator;

/// The right by which a user passes a directory, in words after a colon; nothing where there is none.
pub(crate) fn passing_words<T: Tree>(
    alloc: T::Alloc,
    world: &World<T>,
    user: &User,
    at: NodeRef,
) -> Result<String<T::Alloc>, NoMemory>
    ensures { IfOk result (λ text.
        string_bytes text ≡ passing_text world.now user.now at) }
{
    let Some(node) = world.forest.node(at) else {
        return Ok(String::new(alloc));
    };
    match right_of(who_of(world, user), node) {
        Some(right) => right_words(alloc, right, node.gid()),
        None => Ok(String::new(alloc)),
    }
}

/// A right to a node of this group, in words after a colon.
pub(crate) fn right_words<A: Allocator + Copy>(
    alloc: A,
    right: Right,
    group: &User,
) -> Result<String<A>, NoMemory>
    ensures { IfOk result (λ text. string_bytes text ≡ right_text right group.now) }
{
    let group = shown(alloc, group.as_str())?;
    let mut text = String::from_str(alloc, ": ")?;
    right.push(group.as_str(), &mut text)?;
    Ok(text)
}
