//! Worlds that are the same but for what the text of a world can't say.

use crate::world_text::entry_at;
use p9_base::{Group, Groups, NodeRef};
use p9_tree::{Entry, Node, Tree};
use p9_world::World;
use std::alloc::Allocator;

/// Whether two worlds are the same but for what the text of a world can't say: times, versions, who changed
/// a file last, numbers, and hidden directories that are not there any more.
pub fn is_same_world<T: Tree>(one: &World<T>, other: &World<T>) -> bool {
    one.servers == other.servers
        && one.users == other.users
        && one.vars == other.vars
        && are_same_groups(&one.groups, &other.groups)
        && are_same_trees(one.forest.trees(), other.forest.trees())
        && hides_all_of(one, other)
        && hides_all_of(other, one)
}

// Whether groups are the same, in the same order.
fn are_same_groups<A: Allocator + Copy>(one: &Groups<A>, other: &Groups<A>) -> bool {
    if one.len() != other.len() {
        return false;
    }
    for position in 0..one.len() {
        if !is_same_at(position, one, other) {
            return false;
        }
    }
    true
}

// Whether two groups at a position have the same name, leader and members.
fn is_same_at<A: Allocator + Copy>(position: usize, one: &Groups<A>, other: &Groups<A>) -> bool {
    let (Some((name, group)), Some((other_name, other_group))) = (
        one.at(position),
        other.at(position),
    ) else {
        return false;
    };
    name == other_name && is_same_group(group, other_group)
}

// Whether a group has the same leader and the same members.
fn is_same_group<A: Allocator + Copy>(one: &Group<A>, other: &Group<A>) -> bool {
    one.leader() == other.leader() && one.members() == other.members()
}

// Whether trees are the same, one after another.
fn are_same_trees<T: Tree>(one: &[T], other: &[T]) -> bool {
    one.len() == other.len()
        && one
            .iter()
            .zip(other)
            .all(|(tree, also)| is_same_tree(tree, also))
}

// Whether two trees have the same nodes by rising number.
fn is_same_tree<T: Tree>(one: &T, other: &T) -> bool {
    let (mut number, mut other_number) = (0, 0);
    for _ in 0..u64::MAX {
        let (next, other_next) = (one.first_from(number), other.first_from(other_number));
        let (Some(node), Some(also)) = (next, other_next) else {
            return next.is_none() && other_next.is_none();
        };
        if !is_same_node(one, node, other, also) {
            return false;
        }
        number = node.number().saturating_add(1);
        other_number = also.number().saturating_add(1);
    }
    false
}

// Whether two nodes are at the same place and have the same mode, owner, group and bytes.
fn is_same_node<T: Tree>(one: &T, node: &Node<T::Alloc>, other: &T, also: &Node<T::Alloc>) -> bool {
    node.mode() == also.mode()
        && node.uid() == also.uid()
        && node.gid() == also.gid()
        && node.bytes() == also.bytes()
        && is_same_place(one, node.entry(), other, also.entry())
}

// Whether the same names lead to two entries.
fn is_same_place<T: Tree>(one: &T, entry: Option<Entry>, other: &T, also: Option<Entry>) -> bool {
    let (mut here, mut there) = (entry, also);
    for _ in 0..u64::MAX {
        let (Some(this), Some(that)) = (here, there) else {
            return here.is_none() && there.is_none();
        };
        if this.name != that.name {
            return false;
        }
        here = entry_at(one, this.parent);
        there = entry_at(other, that.parent);
    }
    false
}

// Whether each hidden directory of one world that is there is hidden in the other.
fn hides_all_of<T: Tree>(one: &World<T>, other: &World<T>) -> bool {
    one.hidden.iter().all(|dir| one.forest.node(*dir).is_none() || is_hidden_in(one, *dir, other))
}

// Whether the directory at the same place is hidden in another world.
fn is_hidden_in<T: Tree>(one: &World<T>, dir: NodeRef, other: &World<T>) -> bool {
    other
        .hidden
        .iter()
        .any(|hidden| is_same_dir(one, dir, other, *hidden))
}

// Whether two directories are at the same place of servers of the same number.
fn is_same_dir<T: Tree>(one: &World<T>, dir: NodeRef, other: &World<T>, also: NodeRef) -> bool {
    if dir.server != also.server {
        return false;
    }
    let server = dir.server as usize;
    let (Some(tree), Some(other_tree)) = (
        one.forest.trees().get(server),
        other.forest.trees().get(server),
    ) else {
        return false;
    };
    match (tree.node(dir.number), other_tree.node(also.number)) {
        (Some(node), Some(other_node)) => {
            is_same_place(tree, node.entry(), other_tree, other_node.entry())
        }
        _ => false,
    }
}
