//! What listed users can change of the members of a place.

ghost use Rattle.std.specs.Prelude.{◌≡◌};
ghost use Rattle.p9_cert.specs.Policy.{policy_of};
ghost use Rattle.p9_fixed.specs.Change.{change_kind, node_kind, place_change};
ghost use Rattle.p9_judge.specs.Listed.{Lists};
ghost use Rattle.p9_step.specs.Open.{is_exclusive};

use crate::change::{Change, ChangeKind};
use p9_base::{Kind, NodeRef};
use p9_judge::Listed;
use p9_space::MountTable;
use p9_tree::{Node, Tree};
use p9_world::World;
use std::alloc::Allocator;

/// The first member of a place that some listed user can change.
pub(crate) fn place_change<T: Tree, A: Allocator + Copy, B: Allocator + Copy>(
    world: &World<T>,
    listed: &Listed<A>,
    table: &MountTable<B>,
    place: NodeRef,
) -> Option<Change>
    requires { Lists world.now.users world.now.groups listed.now }
    ensures { result ≡ place_change (policy_of world.now) world.now.forest table.now place }
{
    for member in table.members(place).as_slice() {
        if let Some(kind) = change_kind(world, listed, member.node) {
            return Some(Change {
                place,
                member: member.node,
                kind,
            });
        }
    }
    None
}

// How some listed user can change the node of this number, if there is one.
fn change_kind<T: Tree, A: Allocator + Copy>(
    world: &World<T>,
    listed: &Listed<A>,
    at: NodeRef,
) -> Option<ChangeKind>
    requires { Lists world.now.users world.now.groups listed.now }
    ensures { result ≡ change_kind (policy_of world.now) world.now.forest at }
{
    let node = world.forest.node(at)?;
    node_kind(world, listed, at, node)
}

// How some listed user can change a node.
fn node_kind<T: Tree, A: Allocator + Copy>(
    world: &World<T>,
    listed: &Listed<A>,
    at: NodeRef,
    node: &Node<T::Alloc>,
) -> Option<ChangeKind>
    requires { Lists world.now.users world.now.groups listed.now }
    ensures { result ≡ node_kind (policy_of world.now) world.now.forest at node.now }
{
    if listed.may_alter(world, node) {
        Some(ChangeKind::Alterable)
    } else if listed.may_remove(world, at, node) {
        Some(ChangeKind::Removable)
    } else if is_exclusive(node) && listed.may_use(world, node) {
        Some(ChangeKind::Exclusive)
    } else {
        None
    }
}

// Whether the node is a file of exclusive use.
fn is_exclusive<A: Allocator>(node: &Node<A>) -> bool
    ensures { result ≡ is_exclusive node.now }
{
    match node.mode().kind {
        Kind::File(flags) => flags.exclusive,
        Kind::Directory => false,
    }
}
