//! The search for what listed users can change.

ghost use Rattle.std.specs.Prelude.{◌≡◌, ◌↔◌, IfOk, IfSome, IsSome, None};
ghost use Rattle.p9_cert.specs.Gap.{first_of};
ghost use Rattle.p9_cert.specs.Policy.{policy_of};
ghost use Rattle.p9_cert.specs.Rows.{is_row};
ghost use Rattle.p9_fixed.specs.Change.{children_change, first_change};
ghost use Rattle.p9_fixed.specs.Changer.{changer_of};
ghost use Rattle.p9_fixed.specs.Fixed.{IsFixed};
ghost use Rattle.p9_judge.specs.Listed.{Lists};

use crate::change::Change;
use crate::member::place_change;
use p9_base::{NoMemory, NodeRef};
use p9_cert::Certificate;
use p9_judge::Listed;
use p9_space::{MountTable, ROOT_PLACE};
use p9_tree::Tree;
use p9_world::World;
use std::alloc::Allocator;

/// The first node that some listed user can change, of all that listed users come to by a
/// certificate: the members of the root place, and then, row by row and by rising number, those of
/// each child of a row, taken as a place. There is none exactly where no listed user can change
/// anything there. The only error is that an allocation fails.
///
/// Where the certificate is closed, listed users come to nothing else. Some listed user can change
/// what is found: the first is [`changer`](crate::changer). Who comes to it may be another one.
///
/// For each member of such a place, its node is looked for, and the directory that it is in. The
/// listed users and the groups are gone over once for all: what a node's mode gives is asked of the
/// classes of its users, as by [`judge`](p9_judge::judge).
pub fn first_change<T: Tree, A: Allocator + Copy, B: Allocator + Copy, C: Allocator>(
    alloc: A,
    world: &World<T>,
    table: &MountTable<B>,
    certificate: &Certificate<C>,
) -> Result<Option<Change>, NoMemory>
    ensures change { IfOk result (λ found. found
        ≡ first_change (policy_of world.now) world.now.forest table.now certificate.now) }
    ensures fixed { IfOk result (λ found. (found ≡ None)
        ↔ IsFixed (policy_of world.now) world.now.forest table.now (is_row certificate.now)) }
    ensures by { IfOk result (λ found. IfSome found
        (λ change. IsSome (changer_of (policy_of world.now) world.now.forest change))) }
{
    world.forest.well_formed();
    let listed = Listed::of(alloc, world)?;
    let change = change_among(world, &listed, table, certificate.rows());
    drop(listed);
    Ok(change)
}

// The first node that some listed user can change, at the root place or at a child of a row.
fn change_among<T: Tree, A: Allocator + Copy, B: Allocator + Copy>(
    world: &World<T>,
    listed: &Listed<A>,
    table: &MountTable<B>,
    rows: &[NodeRef],
) -> Option<Change>
    requires { Lists world.now.users world.now.groups listed.now }
    ensures { result
        ≡ first_change (policy_of world.now) world.now.forest table.now rows.now }
{
    match place_change(world, listed, table, ROOT_PLACE) {
        Some(change) => Some(change),
        None => rows_change(world, listed, table, rows),
    }
}

// The first node that some listed user can change, at a child of a row.
fn rows_change<T: Tree, A: Allocator + Copy, B: Allocator + Copy>(
    world: &World<T>,
    listed: &Listed<A>,
    table: &MountTable<B>,
    rows: &[NodeRef],
) -> Option<Change>
    requires { Lists world.now.users world.now.groups listed.now }
    ensures { result ≡ first_of
        (children_change (policy_of world.now) world.now.forest table.now) rows.now }
{
    for row in rows {
        if let Some(change) = children_change(world, listed, table, *row) {
            return Some(change);
        }
    }
    None
}

// The first node that some listed user can change, at a child of this row.
fn children_change<T: Tree, A: Allocator + Copy, B: Allocator + Copy>(
    world: &World<T>,
    listed: &Listed<A>,
    table: &MountTable<B>,
    row: NodeRef,
) -> Option<Change>
    requires { Lists world.now.users world.now.groups listed.now }
    ensures { result ≡ children_change (policy_of world.now) world.now.forest table.now row }
{
    world.forest.well_formed();
    let mut floor = None;
    while let Some(child) = world.forest.after(row, floor) {
        let child = child.number();
        if let Some(change) = place_change(world, listed, table, row.beside(child)) {
            return Some(change);
        }
        floor = Some(child);
    }
    None
}
