//! What listed users can change, in words.

ghost use Rattle.std.specs.Prelude.{◌≡◌, ◌++◌, ℕ, IfOk, List, OnErr, OnOk};
ghost use Rattle.std.specs.String.{string_bytes};
ghost use Rattle.p9_explain.specs.Change.{IsChangeTold, IsDeedTold, IsVerb};

use crate::breach::MEND_DIRECTORY;
use crate::free::first_line;
use crate::member::dir_of;
use crate::passing::right_words;
use crate::right::{TO_USE, push_class, who_of};
use crate::source::{Source, numbered_source};
use crate::teller::{Teller, add, push, shown_path};
use p9_base::{NoMemory, NodeRef, User};
use p9_fixed::{Change, ChangeKind, changer};
use p9_prepared::{Stop, name_space_of};
use p9_right::{altering_right, class_of};
use p9_shown::shown;
use p9_space::{TO_WRITE, may};
use p9_tree::Tree;
use p9_world::World;

/// Says in words what a listed user can change in the name space of an input, and how that is mended:
/// two lines, which are appended to `out`. They name the input by `name`, as those of
/// [`explain`](crate::explain) do. The change is what [`first_change`](p9_fixed::first_change)
/// returns over that name space. The input's certificate is not read. Of an input with another fault
/// nothing is said.
///
/// Where an allocation fails, it returns [`NoMemory`], and `out` is as before.
pub fn explain_change<T: Tree>(
    name: &str,
    input: &[u8],
    change: &Change,
    out: &mut Vec<u8, T::Alloc>,
) -> Result<(), NoMemory>
    ensures ok { OnOk result ((text : List ℕ) × (out.new.items ≡ out.old.items ++ text)) }
    ensures no_memory { OnErr result (out.new.items ≡ out.old.items) }
{
    let alloc = *out.allocator();
    let source = numbered_source::<T>(alloc, name, str::from_utf8(input).unwrap_or(""))?;
    let text = mended_words::<T>(alloc, &source, input, change)?;
    out.extend_from_slice(text.as_bytes())?;
    Ok(())
}

// What a listed user can change in the name space of an input, and how that is mended.
fn mended_words<T: Tree>(
    alloc: T::Alloc,
    source: &Source<'_, T::Alloc>,
    input: &[u8],
    change: &Change,
) -> Result<String<T::Alloc>, NoMemory> {
    match name_space_of::<T>(alloc, input) {
        Ok(space) => {
            let words = change_words(alloc, source, &space.world, change);
            space.discard();
            let words = words?;
            let mend = mend(change.kind);
            Ok(format!(in alloc; "{words}mend: {mend}\n")?)
        }
        Err(Stop::Refused(_)) => Ok(String::new(alloc)),
        Err(Stop::NoMemory) => Err(NoMemory),
    }
}

/// The line of a change: the first listed user who can make it, of which node, by which line that was
/// made, by which right, and where it is bound.
pub(crate) fn change_words<T: Tree>(
    alloc: T::Alloc,
    source: &Source<'_, T::Alloc>,
    world: &World<T>,
    change: &Change,
) -> Result<String<T::Alloc>, NoMemory>
    ensures { IfOk result (λ text. IsChangeTold world.now change.now (string_bytes text)) }
{
    match changer(world, change) {
        Some(user) => deed_words(alloc, source, world, change, &user),
        None => Ok(String::new(alloc)),
    }
}

// The line of a change that this user can make.
fn deed_words<T: Tree>(
    alloc: T::Alloc,
    source: &Source<'_, T::Alloc>,
    world: &World<T>,
    change: &Change,
    user: &User,
) -> Result<String<T::Alloc>, NoMemory>
    ensures { IfOk result (λ text.
        IsDeedTold world.now change.now user.now (string_bytes text)) }
{
    let name = shown(alloc, user.as_str())?;
    let verb = verb(world, change, user);
    let path = shown_path(alloc, world, change.member)?;
    let mut right = String::new(alloc);
    push_right(&mut right, &Teller { source, world }, change, user)?;
    let right = first_line(alloc, right.as_str())?;
    Ok(format!(in alloc; "{name}{verb}{path}{right}\n")?)
}

// What a user may do to the node of a change, between his name and its path.
fn verb<T: Tree>(world: &World<T>, change: &Change, user: &User) -> &'static str
    ensures { IsVerb change.now.kind result.now }
{
    match change.kind {
        ChangeKind::Alterable if may_write(world, change.member, user) => " may write ",
        ChangeKind::Alterable => " may change the mode of ",
        ChangeKind::Removable => " may remove ",
        ChangeKind::Exclusive => " may open ",
    }
}

// Whether a user may write a node.
fn may_write<T: Tree>(world: &World<T>, at: NodeRef, user: &User) -> bool {
    match world.forest.node(at) {
        Some(node) => may(who_of(world, user), node, TO_WRITE),
        None => false,
    }
}

// Adds what follows the path of the node of a change: the line that made it, the right of a user, and
// where it is bound.
fn push_right<T: Tree>(
    text: &mut String<T::Alloc>,
    teller: &Teller<'_, '_, T>,
    change: &Change,
    user: &User,
) -> Result<(), NoMemory> {
    match change.kind {
        ChangeKind::Alterable => push_alteration(text, teller, change.member, user)?,
        ChangeKind::Removable => push_removal(text, teller, change.member, user)?,
        ChangeKind::Exclusive => push_opening(text, teller, change.member, user)?,
    }
    teller.end_line(text, Some(change.place), change.member)
}

// Adds the line that made a node which a user may write or rules, and as what.
fn push_alteration<T: Tree>(
    text: &mut String<T::Alloc>,
    teller: &Teller<'_, '_, T>,
    at: NodeRef,
    user: &User,
) -> Result<(), NoMemory> {
    let world = teller.world;
    push(text, " (")?;
    teller.made(text, at)?;
    if let Some(node) = world.forest.node(at) {
        if let Some(right) = altering_right(who_of(world, user), node) {
            add(text, right_words(*text.allocator(), right, node.gid())?)?;
        }
    }
    push(text, ")")
}

// Adds the line that made a node, and the right of a user to the directory that it is in.
fn push_removal<T: Tree>(
    text: &mut String<T::Alloc>,
    teller: &Teller<'_, '_, T>,
    at: NodeRef,
    user: &User,
) -> Result<(), NoMemory> {
    push(text, " (")?;
    teller.made(text, at)?;
    push(text, ") from ")?;
    let dir = dir_of(teller.world, at).unwrap_or(at);
    teller.path(text, dir)?;
    push_alteration(text, teller, dir, user)
}

// Adds the line that made a file of exclusive use, and as what a user may open it.
fn push_opening<T: Tree>(
    text: &mut String<T::Alloc>,
    teller: &Teller<'_, '_, T>,
    at: NodeRef,
    user: &User,
) -> Result<(), NoMemory> {
    let world = teller.world;
    push(text, ", of exclusive use (")?;
    teller.made(text, at)?;
    if let Some(node) = world.forest.node(at) {
        if let Some(class) = class_of(who_of(world, user), node, TO_USE) {
            push(text, ": ")?;
            push_class(text, class, node.gid())?;
            push(text, " may open it")?;
        }
    }
    push(text, ")")
}

// How it is mended that a listed user can change a node so.
fn mend(kind: ChangeKind) -> &'static str {
    match kind {
        ChangeKind::Alterable => {
            "give it to an owner and a group leader who is not listed, \
             and no write bit to others or to groups with listed members"
        }
        ChangeKind::Removable => MEND_DIRECTORY,
        ChangeKind::Exclusive => {
            "take the letter l from its mode, or give no bits to others or to groups with listed members"
        }
    }
}
