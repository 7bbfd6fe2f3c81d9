//! What is wrong with the members of a place, and who may pass them.

ghost use Rattle.std.specs.Prelude.{◌≡◌, AllPairs, IsTrue, find};
ghost use Rattle.p9_policy.specs.Barred.{AreNotBarred};
ghost use Rattle.p9_cert.specs.Policy.{policy_of};
ghost use Rattle.p9_cert.specs.Rows.{is_below};
ghost use Rattle.p9_judge.specs.Breach.{breach_kind, first_passer, hidden_kind, may_be_passed_by};
ghost use Rattle.p9_judge.specs.Breach.{passer_of, place_breach};
ghost use Rattle.p9_judge.specs.Listed.{Lists};

use crate::breach::BreachKind;
use crate::listed::Listed;
use p9_base::{NodeRef, User};
use p9_cert::{is_hidden, is_inside, may_pass};
use p9_space::{MountTable, Who};
use p9_tree::{Node, Tree};
use p9_world::World;
use std::alloc::Allocator;

/// The first member of a place with which something is wrong, and what that is. `shown` are
/// directories by rising number that are neither hidden nor inside a hidden one.
pub(crate) fn place_breach<T: Tree, A: Allocator + Copy, B: Allocator + Copy>(
    world: &World<T>,
    listed: &Listed<A>,
    table: &MountTable<B>,
    shown: &[NodeRef],
    place: NodeRef,
) -> Option<(NodeRef, BreachKind)>
    requires listed { Lists world.now.users world.now.groups listed.now }
    requires rising { AllPairs (λ a b. IsTrue (is_below a b)) shown.now }
    requires shown { AreNotBarred world.now.hidden world.now.forest shown.now }
    ensures { result ≡ place_breach (policy_of world.now) world.now.forest table.now place }
{
    for member in table.members(place).as_slice() {
        if let Some(kind) = breach_kind(world, listed, shown, member.node) {
            return Some((member.node, kind));
        }
    }
    None
}

// What is wrong with a member, whatever the certificate.
fn breach_kind<T: Tree, A: Allocator + Copy>(
    world: &World<T>,
    listed: &Listed<A>,
    shown: &[NodeRef],
    at: NodeRef,
) -> Option<BreachKind>
    requires listed { Lists world.now.users world.now.groups listed.now }
    requires rising { AllPairs (λ a b. IsTrue (is_below a b)) shown.now }
    requires shown { AreNotBarred world.now.hidden world.now.forest shown.now }
    ensures { result ≡ breach_kind (policy_of world.now) world.now.forest at }
{
    let node = world.forest.node(at)?;
    let hidden = world.hidden.as_slice();
    if is_inside(&world.forest, hidden, shown, at, node.parent()) {
        Some(BreachKind::Inside)
    } else if is_hidden(hidden, at) {
        hidden_kind(world, listed, at, node)
    } else {
        None
    }
}

// What is wrong with a hidden directory.
fn hidden_kind<T: Tree, A: Allocator + Copy>(
    world: &World<T>,
    listed: &Listed<A>,
    at: NodeRef,
    node: &Node<T::Alloc>,
) -> Option<BreachKind>
    requires { Lists world.now.users world.now.groups listed.now }
    ensures { result ≡ hidden_kind (policy_of world.now) world.now.forest at node.now }
{
    if listed.may_use(world, node) {
        Some(BreachKind::Open)
    } else if listed.rule(world, node) {
        Some(BreachKind::Owned)
    } else if listed.may_remove(world, at, node) {
        Some(BreachKind::Removable)
    } else {
        None
    }
}

/// The first listed user who may search the directory of this number or rules it. A file has none,
/// and so has a node that doesn't exist.
pub(crate) fn passer<T: Tree>(world: &World<T>, at: NodeRef) -> Option<User>
    ensures { result ≡ passer_of (policy_of world.now) world.now.forest at }
{
    first_passer(world, world.forest.node(at)?)
}

// The first listed user who may search the directory or rules it. A file has none.
fn first_passer<T: Tree>(world: &World<T>, node: &Node<T::Alloc>) -> Option<User>
    ensures { result ≡ first_passer (policy_of world.now) node.now }
{
    if node.is_dir() {
        first_to_pass(world, node)
    } else {
        None
    }
}

// The first listed user who may search the node or rules it.
fn first_to_pass<T: Tree>(world: &World<T>, node: &Node<T::Alloc>) -> Option<User>
    ensures { result ≡ find (may_be_passed_by (policy_of world.now) node.now) world.now.users }
{
    let groups = &world.groups;
    let users = world.users.as_slice();
    users
        .iter()
        .copied()
        .find(|user| may_pass(Who { user, groups }, node))
}
