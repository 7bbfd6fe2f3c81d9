//! By which right a user may do something with a node.

ghost use Rattle.std.specs.Prelude.{◌≡◌, ◌++◌, OnOk};
ghost use Rattle.std.specs.String.{string_bytes};
ghost use Rattle.p9_explain.specs.Passing.{holds};
ghost use Rattle.p9_right.specs.Class.{class_words};
ghost use Rattle.p9_shown.specs.Text.{shown_text};
ghost use Rattle.p9_space.specs.Rights.{who_view};

use crate::teller::{Teller, push};
use p9_base::{NoMemory, NodeRef, Rights, User};
use p9_right::{Class, Deed, class_of, ruling_class};
use p9_shown::{AsShown, shown};
use p9_space::{TO_EXECUTE, TO_READ, TO_WRITE, Who, may, rules};
use p9_tree::{Node, Tree};
use p9_world::World;
use std::alloc::Allocator;

/// To read, to write or to search.
pub(crate) const TO_USE: Rights = Rights {
    read: true,
    write: true,
    execute: true,
};

/// None of the three.
pub(crate) const NO_RIGHTS: Rights = Rights {
    read: false,
    write: false,
    execute: false,
};

/// The user, and the groups that are listed.
pub(crate) fn who_of<'a, T: Tree>(world: &'a World<T>, user: &'a User) -> Who<'a, T::Alloc>
    ensures { who_view result ≡ record { user = user.now; groups = world.now.groups } }
{
    Who {
        user,
        groups: &world.groups,
    }
}

/// Adds a class to a text, for a node of this group: `others`, `its owner`, `a member of GROUP`, `the
/// leader of GROUP`.
pub(crate) fn push_class<A: Allocator + Copy>(
    text: &mut String<A>,
    class: Class,
    group: &User,
) -> Result<(), NoMemory>
    ensures { OnOk result (string_bytes text.new
        ≡ string_bytes text.old ++ class_words class (shown_text group.now)) }
{
    let group = shown(*text.allocator(), group.as_str())?;
    class.push(group.as_str(), text)?;
    Ok(())
}

// A user who has a right of a node: as whom, and what he may do, in words.
#[derive(Clone, Copy)]
struct Holder {
    user: User,
    class: Class,
    deeds: &'static str,
}

/// Adds to a text by which right a user uses a node, in words: by one of these rights, or since he
/// rules it. It is this user, if he has such a right; or else the first listed user who has one of
/// these rights, or else the first who rules it.
pub(crate) fn push_right<T: Tree>(
    text: &mut String<T::Alloc>,
    teller: &Teller<'_, '_, T>,
    at: NodeRef,
    wanted: Rights,
    walker: Option<User>,
) -> Result<(), NoMemory> {
    let world = teller.world;
    let Some(node) = world.forest.node(at) else {
        return Ok(());
    };
    let asked = match walker {
        Some(user) => held_by(who_of(world, &user), node, wanted),
        None => None,
    };
    let holder = match asked {
        Some(holder) => Some(holder),
        None => holder_of(world, node, wanted),
    };
    match holder {
        Some(holder) => say_holder(text, &holder, node.gid()),
        None => Ok(()),
    }
}

/// Whether a user has one of these rights of a node, or rules it.
pub(crate) fn holds<T: Tree>(world: &World<T>, user: &User, at: NodeRef, wanted: Rights) -> bool
    ensures { result ≡ holds world.now user.now at wanted }
{
    let who = who_of(world, user);
    match world.forest.node(at) {
        Some(node) => class_of(who, node, wanted).is_some() || rules(who, node),
        None => false,
    }
}

// The right of a user of a node: one of these, or else that he rules it.
fn held_by<A: Allocator, B: Allocator + Copy>(
    who: Who<'_, B>,
    node: &Node<A>,
    wanted: Rights,
) -> Option<Holder> {
    match used_by(who, node, wanted) {
        Some(holder) => Some(holder),
        None => ruled_by(who, node),
    }
}

// The right of a user of a node, if he has one of these.
fn used_by<A: Allocator, B: Allocator + Copy>(
    who: Who<'_, B>,
    node: &Node<A>,
    wanted: Rights,
) -> Option<Holder> {
    Some(Holder {
        user: *who.user,
        class: class_of(who, node, wanted)?,
        deeds: deeds(who, node),
    })
}

// The right of a user of a node, if he rules it.
fn ruled_by<A: Allocator, B: Allocator + Copy>(who: Who<'_, B>, node: &Node<A>) -> Option<Holder> {
    Some(Holder {
        user: *who.user,
        class: ruling_class(who, node)?,
        deeds: Deed::Rule.words(),
    })
}

// Says who has a right of a node of this group. For others no user is named.
fn say_holder<A: Allocator + Copy>(
    text: &mut String<A>,
    holder: &Holder,
    group: &User,
) -> Result<(), NoMemory> {
    let is_named = holder.class != Class::Others;
    if is_named {
        write!(text, "{}, ", AsShown(holder.user.as_str()))?;
    }
    push_class(text, holder.class, group)?;
    if is_named {
        push(text, ",")?;
    }
    push(text, holder.deeds)
}

// The first listed user who has one of these rights of a node, or else the first who rules it.
fn holder_of<T: Tree>(world: &World<T>, node: &Node<T::Alloc>, wanted: Rights) -> Option<Holder> {
    for user in world.users.as_slice() {
        if let Some(holder) = used_by(who_of(world, user), node, wanted) {
            return Some(holder);
        }
    }
    ruler_of(world, node)
}

// The first listed user who rules a node.
fn ruler_of<T: Tree>(world: &World<T>, node: &Node<T::Alloc>) -> Option<Holder> {
    for user in world.users.as_slice() {
        if let Some(holder) = ruled_by(who_of(world, user), node) {
            return Some(holder);
        }
    }
    None
}

// Which of the three the user may do.
fn deeds<A: Allocator, B: Allocator + Copy>(who: Who<'_, B>, node: &Node<A>) -> &'static str {
    let to_read = may(who, node, TO_READ);
    let to_write = may(who, node, TO_WRITE);
    let to_search = may(who, node, TO_EXECUTE);
    match (to_read, to_write, to_search) {
        (true, true, true) => " may read, write and search it",
        (true, true, false) => " may read and write it",
        (true, false, true) => " may read and search it",
        (true, false, false) => " may read it",
        (false, true, true) => " may write and search it",
        (false, true, false) => " may write it",
        (false, false, _) => " may search it",
    }
}
