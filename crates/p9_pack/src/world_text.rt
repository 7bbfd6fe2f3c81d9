//! The lines of a world as it is now, with all of its trees.

use p9_base::{Group, Groups, Kind, NoMemory, NodeRef, Stop, User};
use p9_tree::{Entry, Node, Tree};
use p9_world::{
    DirLine, FileLine, GroupLine, HideLine, PlainName, PlainUser, ServerName, Unfit, World,
    write_dir, write_file, write_group, write_hide, write_server, write_user,
};
use std::alloc::Allocator;

/// A file or directory that a world's text can't have, and why.
#[derive(Clone, Copy, Debug, PartialEq, Eq)]
pub struct UnfitNode {
    pub at: NodeRef,
    pub unfit: Unfit,
}

/// The files and directories that a world's text can't have, since their own name, their owner or their
/// group is no word of a line. The only error is a failed allocation.
pub fn unfit_nodes<T: Tree>(
    alloc: T::Alloc,
    world: &World<T>,
) -> Result<Vec<UnfitNode, T::Alloc>, NoMemory> {
    let mut unfit = Vec::new(alloc);
    for (server, tree) in world.forest.trees().iter().enumerate() {
        push_unfit(tree, server as u16, &mut unfit)?;
    }
    Ok(unfit)
}

// Adds the nodes of a server that a world's text can't have.
fn push_unfit<T: Tree>(
    tree: &T,
    server: u16,
    unfit: &mut Vec<UnfitNode, T::Alloc>,
) -> Result<(), NoMemory> {
    let mut number = 0;
    for _ in 0..u64::MAX {
        let Some(node) = tree.first_from(number) else {
            return Ok(());
        };
        number = node.number();
        if let Some(why) = unfit_of(node) {
            let at = NodeRef { server, number };
            unfit.push(UnfitNode { at, unfit: why })?;
        }
        number = number.saturating_add(1);
    }
    Ok(())
}

// Why a world's text can't have a node, whatever directory it is in.
fn unfit_of<A: Allocator>(node: &Node<A>) -> Option<Unfit> {
    if let Some(entry) = node.entry() {
        if let Err(unfit) = PlainName::new(entry.name.as_str()) {
            return Some(unfit);
        }
    }
    match (
        PlainUser::new(node.uid().as_str()),
        PlainUser::new(node.gid().as_str()),
    ) {
        (Ok(_), Ok(_)) => None,
        (Err(unfit), _) | (_, Err(unfit)) => Some(unfit),
    }
}

/// Adds the lines of a world to a text: each server with its tree as it is now, the users, the groups, and
/// the hidden directories that are there. The lines of variables are not added. What a world's text
/// can't say is lost: times, versions, who changed a file last, and the numbers.
///
/// # Errors
///
/// [`Stop::Refused`] where a name is no word of a line, and [`Stop::NoMemory`] where an allocation fails.
/// A part of the lines may be added then.
pub fn write_world<T: Tree>(
    alloc: T::Alloc,
    world: &World<T>,
    out: &mut Vec<u8, T::Alloc>,
) -> Result<(), Stop<Unfit>> {
    for (server, tree) in world.servers.iter().zip(world.forest.trees()) {
        write_server(alloc, fit(ServerName::new(server.as_str()))?, out)?;
        write_tree(alloc, tree, out)?;
    }
    for user in world.users.as_slice() {
        write_user(alloc, plain_user(user)?, out)?;
    }
    write_groups(alloc, &world.groups, out)?;
    for dir in world.hidden.as_slice() {
        write_hidden(alloc, world, *dir, out)?;
    }
    Ok(())
}

// Adds the lines of a server's tree, each directory before what is in it.
fn write_tree<T: Tree>(
    alloc: T::Alloc,
    tree: &T,
    out: &mut Vec<u8, T::Alloc>,
) -> Result<(), Stop<Unfit>> {
    let mut number = 0;
    for _ in 0..u64::MAX {
        let Some(node) = tree.first_from(number) else {
            return Ok(());
        };
        write_node(alloc, tree, node, out)?;
        number = node.number().saturating_add(1);
    }
    Ok(())
}

// Adds the line of a node.
fn write_node<T: Tree>(
    alloc: T::Alloc,
    tree: &T,
    node: &Node<T::Alloc>,
    out: &mut Vec<u8, T::Alloc>,
) -> Result<(), Stop<Unfit>> {
    let names = names_to(alloc, tree, node)?;
    let path = names.as_slice();
    let permissions = node.mode().permissions;
    let uid = plain_user(node.uid())?;
    let gid = plain_user(node.gid())?;
    match node.mode().kind {
        Kind::Directory => {
            let dir = DirLine {
                path,
                permissions,
                uid,
                gid,
            };
            write_dir(alloc, &dir, out)?;
        }
        Kind::File(flags) => {
            let file = FileLine {
                path,
                flags,
                permissions,
                uid,
                gid,
                bytes: node.bytes(),
            };
            write_file(alloc, &file, out)?;
        }
    }
    Ok(())
}

// The names that lead to a node from its server's root.
fn names_to<T: Tree>(
    alloc: T::Alloc,
    tree: &T,
    node: &Node<T::Alloc>,
) -> Result<Vec<PlainName, T::Alloc>, Stop<Unfit>> {
    let mut names = Vec::new(alloc);
    let mut here = node.entry();
    for _ in 0..node.number() {
        let Some(entry) = here else {
            break;
        };
        names.push(fit(PlainName::new(entry.name.as_str()))?)?;
        here = entry_at(tree, entry.parent);
    }
    names.reverse();
    Ok(names)
}

/// In which directory a node of a number is, and under which name, where it is there and no root.
pub(crate) fn entry_at<T: Tree>(tree: &T, number: u64) -> Option<Entry> {
    tree.node(number)?.entry()
}

// Adds the lines of groups.
fn write_groups<A: Allocator + Copy>(
    alloc: A,
    groups: &Groups<A>,
    out: &mut Vec<u8, A>,
) -> Result<(), Stop<Unfit>> {
    for position in 0..groups.len() {
        if let Some((name, group)) = groups.at(position) {
            write_one_group(alloc, name, group, out)?;
        }
    }
    Ok(())
}

// Adds the line of a group.
fn write_one_group<A: Allocator + Copy>(
    alloc: A,
    name: &User,
    group: &Group<A>,
    out: &mut Vec<u8, A>,
) -> Result<(), Stop<Unfit>> {
    let mut members = Vec::new(alloc);
    for member in group.members() {
        members.push(plain_user(member)?)?;
    }
    let line = GroupLine {
        name: plain_user(name)?,
        leader: plain_user(group.leader())?,
        members: members.as_slice(),
    };
    write_group(alloc, &line, out)?;
    Ok(())
}

// Adds the line that hides a directory, where that is there.
fn write_hidden<T: Tree>(
    alloc: T::Alloc,
    world: &World<T>,
    dir: NodeRef,
    out: &mut Vec<u8, T::Alloc>,
) -> Result<(), Stop<Unfit>> {
    let server = dir.server as usize;
    let (Some(name), Some(tree)) = (world.servers.get(server), world.forest.trees().get(server))
    else {
        return Ok(());
    };
    let Some(node) = tree.node(dir.number) else {
        return Ok(());
    };
    let path = names_to(alloc, tree, node)?;
    let line = HideLine {
        server: fit(ServerName::new(name.as_str()))?,
        path: path.as_slice(),
    };
    write_hide(alloc, &line, out)?;
    Ok(())
}

// A user or a group, as a word of a line.
fn plain_user(user: &User) -> Result<PlainUser, Stop<Unfit>> {
    fit(PlainUser::new(user.as_str()))
}

// What fits into a world's text, or that it doesn't.
fn fit<T: Drop>(fitted: Result<T, Unfit>) -> Result<T, Stop<Unfit>> {
    match fitted {
        Ok(value) => Ok(value),
        Err(unfit) => Err(Stop::Refused(unfit)),
    }
}
