//! Hints on names that are no listed users, and may be mistyped.

use crate::hints::push_hint;
use crate::member::dir_of;
use crate::teller::Teller;
use p9_base::{NoMemory, NodeRef, Statement, User};
use p9_prepared::Section;
use p9_tree::Tree;
use p9_world::{LineWords, World};
use std::alloc::{AllocError, Allocator};
use std::collections::BTreeSet;

// Whom every server's root has as its owner until a line changes that.
const ROOT_OWNER: &str = "sys";

// The names that are no hint: listed users, and who keeps hidden directories.
#[derive(Drop)]
struct Known<A: Allocator> {
    // The names of users of whom nothing is said.
    users: BTreeSet<User, A>,
    // The groups of hidden directories, and of those above them.
    groups: BTreeSet<User, A>,
}

/// Adds the owners, group leaders and members who are no listed users, each once. Nothing is said of
/// the owners and the group leaders of hidden directories and of those above them, who are not to be
/// listed, nor of the first owner of every root.
pub(crate) fn push_strangers<T: Tree>(
    text: &mut String<T::Alloc>,
    teller: &Teller<'_, '_, T>,
    statements: &[Statement<'_, T::Alloc>],
) -> Result<(), NoMemory> {
    let mut known = known_in(*text.allocator(), teller.world)?;
    push_unknown(text, teller, statements, &mut known)
}

// Adds the names of these lines that are not known, which are known then.
fn push_unknown<T: Tree>(
    text: &mut String<T::Alloc>,
    teller: &Teller<'_, '_, T>,
    statements: &[Statement<'_, T::Alloc>],
    known: &mut Known<T::Alloc>,
) -> Result<(), NoMemory> {
    for statement in statements {
        push_unknown_in(text, teller, statement, known)?;
    }
    Ok(())
}

// Adds the owner, the group leader and the members of a line who are not known, who are known then.
fn push_unknown_in<T: Tree>(
    text: &mut String<T::Alloc>,
    teller: &Teller<'_, '_, T>,
    statement: &Statement<'_, T::Alloc>,
    known: &mut Known<T::Alloc>,
) -> Result<(), NoMemory> {
    let at = (Section::World, statement.line);
    match LineWords::read(statement.words.as_slice()) {
        Ok(LineWords::Dir(node)) | Ok(LineWords::File(node, _)) => {
            push_names(text, teller, at, &[node.uid], &mut known.users)
        }
        Ok(LineWords::Group(name, leader, members)) => {
            if !is_one_of(name, &known.groups) {
                push_names(text, teller, at, &[leader], &mut known.users)?;
            }
            push_names(text, teller, at, members, &mut known.users)
        }
        _ => Ok(()),
    }
}

// Adds the names of a line that are not known, which are known then.
fn push_names<T: Tree>(
    text: &mut String<T::Alloc>,
    teller: &Teller<'_, '_, T>,
    at: (Section, u64),
    names: &[&str],
    known: &mut BTreeSet<User, T::Alloc>,
) -> Result<(), NoMemory> {
    for name in names {
        let Some(user) = User::new(name) else {
            continue;
        };
        if known.insert(user)? && *name != ROOT_OWNER {
            push_hint(text, teller.source, at, name, " is no listed user")?;
        }
    }
    Ok(())
}

// Whether a name is that of one of these groups.
fn is_one_of<A: Allocator>(name: &str, groups: &BTreeSet<User, A>) -> bool {
    match User::new(name) {
        Some(group) => groups.contains(&group),
        None => false,
    }
}

// The listed users, and the owners and groups of hidden directories and of those above them.
fn known_in<T: Tree>(alloc: T::Alloc, world: &World<T>) -> Result<Known<T::Alloc>, NoMemory> {
    let mut known = Known {
        users: BTreeSet::new(alloc),
        groups: BTreeSet::new(alloc),
    };
    for user in world.users.as_slice() {
        let _ = known.users.insert(*user)?;
    }
    for dir in world.hidden.as_slice() {
        known.keep(world, *dir)?;
    }
    Ok(known)
}

impl<A: Allocator + Copy> Known<A> {
    // Adds the owners and groups of a directory and of those above it.
    fn keep<T: Tree>(&mut self, world: &World<T>, dir: NodeRef) -> Result<(), AllocError> {
        let mut next = Some(dir);
        for _ in 0..=dir.number {
            let Some(here) = next else {
                return Ok(());
            };
            if let Some(node) = world.forest.node(here) {
                let _ = self.users.insert(*node.uid())?;
                let _ = self.groups.insert(*node.gid())?;
            }
            next = dir_of(world, here);
        }
        Ok(())
    }
}
