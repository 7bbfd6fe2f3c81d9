//! What is wrong with the members of a place.

ghost use Rattle.std.specs.Prelude.{◌≡◌, AllPairs, IsTrue, Some, if◌then◌else◌};
ghost use Rattle.p9_policy.specs.Barred.{AreNotBarred};
ghost use Rattle.p9_policy.specs.Listed.{is_open};
ghost use Rattle.p9_policy.specs.Policy.{policy_of};
ghost use Rattle.p9_policy.specs.Rows.{is_below};
ghost use Rattle.p9_cert.specs.declared.gap.MemberFault.TheVariants.{Open, Owned};
ghost use Rattle.p9_cert.specs.Gap.{hidden_fault, is_removable, member_fault, place_fault};

use crate::gap::MemberFault;
use p9_base::NodeRef;
use p9_policy::{Listed, is_hidden, is_inside, is_row, listed_in};
use p9_space::MountTable;
use p9_tree::{Node, Tree};
use p9_world::World;
use std::alloc::Allocator;

/// The first member of a place with which something is wrong, and what that is.
pub(crate) fn place_fault<T: Tree, A: Allocator + Copy>(
    world: &World<T>,
    table: &MountTable<A>,
    rows: &[NodeRef],
    place: NodeRef,
) -> Option<(NodeRef, MemberFault)>
    requires rising { AllPairs (λ a b. IsTrue (is_below a b)) rows.now }
    requires shown { AreNotBarred world.now.hidden world.now.forest rows.now }
    ensures { result
        ≡ place_fault (policy_of world.now) world.now.forest table.now rows.now place }
{
    for member in table.members(place).as_slice() {
        if let Some(kind) = member_fault(world, rows, member.node) {
            return Some((member.node, kind));
        }
    }
    None
}

/// What is wrong with a member of a place, for a certificate of these rows. They rise, and none of
/// them is hidden or inside a hidden directory. A member that doesn't exist is safe.
pub fn member_fault<T: Tree>(world: &World<T>, rows: &[NodeRef], at: NodeRef) -> Option<MemberFault>
    requires rising { AllPairs (λ a b. IsTrue (is_below a b)) rows.now }
    requires shown { AreNotBarred world.now.hidden world.now.forest rows.now }
    ensures { result ≡ member_fault (policy_of world.now) world.now.forest rows.now at }
{
    world.forest.well_formed();
    if is_row(rows, at) {
        return None;
    }
    let node = world.forest.node(at)?;
    let hidden = world.hidden.as_slice();
    if is_inside(&world.forest, hidden, rows, at, node.parent()) {
        return Some(MemberFault::Inside);
    }
    if is_hidden(hidden, at) {
        hidden_fault(world, at, node)
    } else if listed_in(world).may_pass(node) {
        Some(MemberFault::Missing)
    } else {
        None
    }
}

// What is wrong with a hidden directory.
fn hidden_fault<T: Tree>(
    world: &World<T>,
    at: NodeRef,
    node: &Node<T::Alloc>,
) -> Option<MemberFault>
    ensures { result ≡ hidden_fault (policy_of world.now) world.now.forest at node.now }
{
    let listed = listed_in(world);
    if listed.may_use_or_rule(node) {
        Some(use_fault(listed, node))
    } else if is_removable(world, at, node) {
        Some(MemberFault::Removable)
    } else {
        None
    }
}

// What is wrong with a hidden directory that some listed user may use or rules.
fn use_fault<A: Allocator + Copy, B: Allocator>(
    listed: Listed<'_, A>,
    node: &Node<B>,
) -> MemberFault
    ensures { result ≡ (if is_open listed.entry.users.now listed.entry.groups.now node.now then Open
        else Owned) }
{
    if listed.may_use(node) {
        MemberFault::Open
    } else {
        MemberFault::Owned
    }
}

// Whether some listed user may write the directory that the node is in, or rules that.
fn is_removable<T: Tree>(world: &World<T>, at: NodeRef, node: &Node<T::Alloc>) -> bool
    ensures { result ≡ is_removable (policy_of world.now) world.now.forest at node.now }
{
    let Some(parent) = node.parent() else {
        return false;
    };
    match world.forest.node(at.beside(parent)) {
        Some(dir) => listed_in(world).may_alter(dir),
        None => false,
    }
}
