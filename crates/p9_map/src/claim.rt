//! What an input claims.

ghost use Rattle.std.specs.Prelude.{◌≡◌, ◌++◌, IfOk, OnOk};
ghost use Rattle.std.specs.String.{string_bytes};
ghost use Rattle.p9_map.specs.Claim.{claim_text, comma_list, shown_path, users_text};

use p9_base::{NoMemory, NodeRef, User};
use p9_prepared::path_of;
use p9_shown::{push_shown, shown};
use p9_tree::Tree;
use p9_world::World;
use std::alloc::Allocator;

/// The claim of a world: what is inside its hidden directories, and which users do not come there.
pub(crate) fn claim_of<T: Tree>(
    alloc: T::Alloc,
    world: &World<T>,
) -> Result<String<T::Alloc>, NoMemory>
    ensures { IfOk result (λ claim. string_bytes claim ≡ claim_text world.now) }
{
    if world.hidden.is_empty() {
        return Ok(String::from_str(alloc, "claim: none, since nothing is hidden")?);
    }
    let dirs = hidden_paths(alloc, world, world.hidden.as_slice())?;
    let users = user_names(alloc, world.users.as_slice())?;
    let mut claim = String::from_str(alloc, "claim: what is inside ")?;
    claim.push_str(dirs.as_str())?;
    claim.push_str(" is neither seen nor changed by ")?;
    claim.push_str(users.as_str())?;
    Ok(claim)
}

// The paths of directories, with a comma between them.
fn hidden_paths<T: Tree>(
    alloc: T::Alloc,
    world: &World<T>,
    dirs: &[NodeRef],
) -> Result<String<T::Alloc>, NoMemory>
    ensures { IfOk result (λ text.
        string_bytes text ≡ comma_list (shown_path world.now) dirs.now) }
{
    let Some((first, others)) = dirs.split_first() else {
        return Ok(String::new(alloc));
    };
    let mut text = String::new(alloc);
    push_path(world, *first, &mut text)?;
    for dir in others {
        text.push_str(", ")?;
        push_path(world, *dir, &mut text)?;
    }
    Ok(text)
}

/// The path of a node as it is shown.
pub(crate) fn shown_path<T: Tree>(
    alloc: T::Alloc,
    world: &World<T>,
    at: NodeRef,
) -> Result<String<T::Alloc>, NoMemory>
    ensures { IfOk result (λ text. string_bytes text ≡ shown_path world.now at) }
{
    let mut text = String::new(alloc);
    push_path(world, at, &mut text)?;
    Ok(text)
}

// Adds the path of a directory as it is shown.
fn push_path<T: Tree>(
    world: &World<T>,
    dir: NodeRef,
    text: &mut String<T::Alloc>,
) -> Result<(), NoMemory>
    ensures { OnOk result
        (string_bytes text.new ≡ string_bytes text.old ++ shown_path world.now dir) }
{
    let path = path_of(*text.allocator(), world, dir)?;
    push_shown(path.as_str(), text)?;
    Ok(())
}

// The names of users as they are shown, with a comma between them.
fn user_names<A: Allocator + Copy>(alloc: A, users: &[User]) -> Result<String<A>, NoMemory>
    ensures { IfOk result (λ text. string_bytes text ≡ users_text users.now) }
{
    let Some((first, others)) = users.split_first() else {
        return Ok(String::from_str(alloc, "a user, since none is listed")?);
    };
    let mut text = shown(alloc, first.as_str())?;
    for user in others {
        text.push_str(", ")?;
        push_shown(user.as_str(), &mut text)?;
    }
    Ok(text)
}
