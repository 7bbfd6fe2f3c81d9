//! What an input claims.

ghost use Rattle.std.specs.Prelude.{◌≡◌, ◌++◌, OnOk};
ghost use Rattle.std.specs.String.{string_bytes};
ghost use Rattle.p9_explain.specs.Claim.{after_name, after_path, claim_about, claim_text, names_text};
ghost use Rattle.p9_explain.specs.Claim.{paths_text, users_text};

use crate::teller::{push, push_path};
use p9_base::{NoMemory, NodeRef, User};
use p9_shown::push_shown;
use p9_tree::Tree;
use p9_world::World;
use std::alloc::Allocator;

/// Adds the claim of a world to a text, as a line: of which users, and about which directories.
pub(crate) fn push_claim<T: Tree>(
    text: &mut String<T::Alloc>,
    world: &World<T>,
) -> Result<(), NoMemory>
    ensures { OnOk result
        (string_bytes text.new ≡ string_bytes text.old ++ claim_text world.now) }
{
    push_claim_about(text, world, world.hidden.as_slice())
}

// Adds the claim about these directories.
fn push_claim_about<T: Tree>(
    text: &mut String<T::Alloc>,
    world: &World<T>,
    hidden: &[NodeRef],
) -> Result<(), NoMemory>
    ensures { OnOk result
        (string_bytes text.new ≡ string_bytes text.old ++ claim_about world.now hidden.now) }
{
    match hidden {
        [] => push(text, "claim: none, since nothing is hidden\n"),
        [_, ..] => {
            push_users(text, world.users.as_slice())?;
            push(text, " what is inside ")?;
            push_paths(text, world, hidden)?;
            Ok(())
        }
    }
}

// Adds of which users something is claimed, and what.
fn push_users<A: Allocator + Copy>(text: &mut String<A>, users: &[User]) -> Result<(), NoMemory>
    ensures { OnOk result
        (string_bytes text.new ≡ string_bytes text.old ++ users_text users.now) }
{
    match users {
        [] => push(text, "claim: no user is listed, so none sees or changes"),
        [user] => {
            push(text, "claim: ")?;
            push_shown(user.as_str(), text)?;
            push(text, " neither sees nor changes")
        }
        [_, _, ..] => {
            push(text, "claim: of ")?;
            push_names(text, users)?;
            push(text, ", none sees or changes")
        }
    }
}

// Adds the names of users: `a`, `a and b`, `a, b and c`.
fn push_names<A: Allocator + Copy>(text: &mut String<A>, users: &[User]) -> Result<(), NoMemory>
    ensures { OnOk result
        (string_bytes text.new ≡ string_bytes text.old ++ names_text users.now) }
{
    let mut left = users.len();
    for user in users {
        left = left.saturating_sub(1);
        push_shown(user.as_str(), text)?;
        push(text, after_name(left))?;
    }
    Ok(())
}

// What follows a name, where so many are left.
fn after_name(left: usize) -> &'static str
    ensures { result.now ≡ after_name left }
{
    match left {
        0 => "",
        1 => " and ",
        _ => ", ",
    }
}

// Adds the paths of directories, with a comma between them, as the end of the line.
fn push_paths<T: Tree>(
    text: &mut String<T::Alloc>,
    world: &World<T>,
    dirs: &[NodeRef],
) -> Result<(), NoMemory>
    ensures { OnOk result
        (string_bytes text.new ≡ string_bytes text.old ++ paths_text world.now dirs.now) }
{
    let mut left = dirs.len();
    for dir in dirs {
        left = left.saturating_sub(1);
        push_path(text, world, *dir)?;
        push(text, after_path(left))?;
    }
    Ok(())
}

// What follows a path, where so many are left.
fn after_path(left: usize) -> &'static str
    ensures { result.now ≡ after_path left }
{
    if left == 0 { "\n" } else { ", " }
}
