//! Who can change what listed users come to.

ghost use Rattle.std.specs.Prelude.{◌≡◌, option_and_then};
ghost use Rattle.p9_cert.specs.Listed.{may_alter, may_use};
ghost use Rattle.p9_cert.specs.Policy.{policy_of};
ghost use Rattle.p9_fixed.specs.Changer.{changer_of, first_who, parent_of};
ghost use Rattle.p9_space.specs.Rights.{who_view};
ghost use Rattle.p9_tree.specs.Forest.{node_of};

use crate::change::{Change, ChangeKind};
use p9_base::{NodeRef, User};
use p9_space::{TO_EXECUTE, TO_READ, TO_WRITE, Who, may, rules};
use p9_tree::{Node, Tree};
use p9_world::World;
use std::alloc::Allocator;

/// The first listed user who can change the node so. The listed users are gone over.
///
/// Of what [`first_change`](crate::first_change) returns over the world there is one.
pub fn changer<T: Tree>(world: &World<T>, change: &Change) -> Option<User>
    ensures { result ≡ changer_of (policy_of world.now) world.now.forest change.now }
{
    match change.kind {
        ChangeKind::Alterable => first_to_alter(world, change.member),
        ChangeKind::Removable => first_to_alter(world, dir_of(world, change.member)?),
        ChangeKind::Exclusive => first_to_use(world, change.member),
    }
}

// The directory that the node is in.
fn dir_of<T: Tree>(world: &World<T>, at: NodeRef) -> Option<NodeRef>
    ensures { result ≡ parent_of world.now.forest at }
{
    let parent = world.forest.node(at)?.parent()?;
    Some(at.beside(parent))
}

// The first listed user who may write the node of this number, or rules it.
fn first_to_alter<T: Tree>(world: &World<T>, at: NodeRef) -> Option<User>
    ensures { result
        ≡ option_and_then (first_who (policy_of world.now) may_alter) (node_of at world.now.forest) }
{
    alterer(world, world.forest.node(at)?)
}

// The first listed user who may write the node or rules it.
fn alterer<T: Tree>(world: &World<T>, node: &Node<T::Alloc>) -> Option<User>
    ensures { result ≡ first_who (policy_of world.now) may_alter node.now }
{
    let groups = &world.groups;
    let users = world.users.as_slice();
    users
        .iter()
        .copied()
        .find(|user| may_alter(Who { user, groups }, node))
}

// The first listed user who may read, write or search the node of this number.
fn first_to_use<T: Tree>(world: &World<T>, at: NodeRef) -> Option<User>
    ensures { result
        ≡ option_and_then (first_who (policy_of world.now) may_use) (node_of at world.now.forest) }
{
    holder(world, world.forest.node(at)?)
}

// The first listed user who may read, write or search the node.
fn holder<T: Tree>(world: &World<T>, node: &Node<T::Alloc>) -> Option<User>
    ensures { result ≡ first_who (policy_of world.now) may_use node.now }
{
    let groups = &world.groups;
    let users = world.users.as_slice();
    users
        .iter()
        .copied()
        .find(|user| may_use(Who { user, groups }, node))
}

// Whether the user may write the node, or rules it.
fn may_alter<A: Allocator, B: Allocator + Copy>(who: Who<'_, B>, node: &Node<A>) -> bool
    ensures { result ≡ may_alter node.now (who_view who.entry) }
{
    may(who, node, TO_WRITE) || rules(who, node)
}

// Whether the user may read, write or search the node.
fn may_use<A: Allocator, B: Allocator + Copy>(who: Who<'_, B>, node: &Node<A>) -> bool
    ensures { result ≡ may_use node.now (who_view who.entry) }
{
    may(who, node, TO_READ) || may(who, node, TO_WRITE) || may(who, node, TO_EXECUTE)
}
