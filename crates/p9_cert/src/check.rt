//! The check of a certificate.

ghost use Rattle.std.specs.Prelude.{◌≡◌, ◌↔◌, AllPairs, IsFalse, IsOk, IsTrue, OnOk};
ghost use Rattle.std.specs.Result.{result_err};
ghost use Rattle.p9_tree.specs.Inside.{is_barred};
ghost use Rattle.p9_policy.specs.Barred.{AreNotBarred};
ghost use Rattle.p9_policy.specs.Policy.{policy_of};
ghost use Rattle.p9_policy.specs.Rows.{is_below, is_row};
ghost use Rattle.p9_cert.specs.Closed.{IsClosed};
ghost use Rattle.p9_cert.specs.Gap.{children_gap, first_counted, first_gap, members_gap, mount_gap};
ghost use Rattle.p9_cert.specs.Gap.{node_gap, place_gap, root_gap, row_fault, row_gap, table_gap};

use crate::gap::{Gap, RowFault};
use crate::place::place_fault;
use p9_base::NodeRef;
use p9_policy::{Certificate, is_hidden, is_inside};
use p9_space::{Member, MountTable, ROOT_PLACE, is_given};
use p9_tree::{Forest, Tree};
use p9_world::World;
use std::alloc::Allocator;

/// Checks that a certificate is closed over a world and a mount table. The error is the first
/// [`Gap`], in this order:
///
/// 1. the keys and members of the table, row by row: each lies below its server's next number;
/// 2. the rows of the certificate: each is a directory that exists, neither hidden nor inside a
///    hidden one;
/// 3. the members of the root place, and then, row by row and by rising number, those of each child
///    of a row, taken as a place: each is safe, as [`MemberFault`](crate::MemberFault) says.
///
/// This takes no memory. For each row, and for each member of a child of a row, it looks for its
/// number among the rows. For a row, and for a member that is none, it looks for the node and goes
/// over the hidden directories, and to see whether it is inside, it looks at the directories above
/// it, up to the first that is a row. It goes over the listed users only for a member that is no
/// row and whose mode doesn't let everybody pass, and then compares names alone.
pub fn verify<T: Tree, A: Allocator + Copy, B: Allocator>(
    world: &World<T>,
    table: &MountTable<A>,
    certificate: &Certificate<B>,
) -> Result<(), Gap>
    ensures gap { result_err result
        ≡ first_gap (policy_of world.now) world.now.forest table.now certificate.now }
    ensures closed { IsOk result ↔ IsClosed (policy_of world.now) world.now.forest table.now
        (is_row certificate.now) }
{
    world.forest.well_formed();
    check(world, table, certificate.rows())
}

// The tests in their order.
fn check<T: Tree, A: Allocator + Copy>(
    world: &World<T>,
    table: &MountTable<A>,
    rows: &[NodeRef],
) -> Result<(), Gap>
    requires { AllPairs (λ a b. IsTrue (is_below a b)) rows.now }
    ensures { result_err result
        ≡ first_gap (policy_of world.now) world.now.forest table.now rows.now }
{
    check_table(&world.forest, table)?;
    check_rows(world, rows)?;
    check_root(world, table, rows)?;
    check_children(world, table, rows)
}

// Each key and member of the table is a node that was made.
fn check_table<T: Tree, A: Allocator + Copy>(
    forest: &Forest<T>,
    table: &MountTable<A>,
) -> Result<(), Gap>
    ensures { result_err result ≡ table_gap forest.now table.now }
{
    for position in 0..table.len() {
        if let Some((key, members)) = table.row(position) {
            check_mount(forest, key, members.as_slice())?;
        }
    }
    Ok(())
}

// The key and the members of one row of the table are nodes that were made.
fn check_mount<T: Tree>(forest: &Forest<T>, key: NodeRef, members: &[Member]) -> Result<(), Gap>
    ensures { result_err result ≡ mount_gap forest.now (key, members.now) }
{
    check_given(forest, key)?;
    check_members(forest, members)
}

// The members of a row of the table are nodes that were made.
fn check_members<T: Tree>(forest: &Forest<T>, members: &[Member]) -> Result<(), Gap>
    ensures { result_err result ≡ members_gap forest.now members.now }
{
    for member in members {
        check_given(forest, member.node)?;
    }
    Ok(())
}

// The number of the node was given.
fn check_given<T: Tree>(forest: &Forest<T>, at: NodeRef) -> Result<(), Gap>
    ensures { result_err result ≡ node_gap forest.now at }
{
    if is_given(forest, at) {
        Ok(())
    } else {
        Err(Gap::Table(at))
    }
}

// Each row is a directory that exists, neither hidden nor inside a hidden one.
fn check_rows<T: Tree>(world: &World<T>, rows: &[NodeRef]) -> Result<(), Gap>
    requires { AllPairs (λ a b. IsTrue (is_below a b)) rows.now }
    ensures gap { result_err result
        ≡ first_counted (row_gap (policy_of world.now) world.now.forest) 1 rows.now }
    ensures shown { OnOk result (AreNotBarred world.now.hidden world.now.forest rows.now) }
{
    for (i, row) in rows.iter().enumerate() {
        check_row(world, &rows[..i], i as u64 + 1, *row)?;
    }
    Ok(())
}

// A row is a directory that exists, neither hidden nor inside a hidden one. `shown` are the rows
// before it.
fn check_row<T: Tree>(
    world: &World<T>,
    shown: &[NodeRef],
    number: u64,
    row: NodeRef,
) -> Result<(), Gap>
    requires rising { AllPairs (λ a b. IsTrue (is_below a b)) shown.now }
    requires shown { AreNotBarred world.now.hidden world.now.forest shown.now }
    ensures gap { result_err result ≡ row_gap (policy_of world.now) world.now.forest number row }
    ensures outside { OnOk result
        (IsFalse (is_barred row world.now.hidden world.now.forest)) }
{
    world.forest.well_formed();
    match row_fault(world, shown, row) {
        Some(kind) => Err(Gap::Row { row: number, kind }),
        None => Ok(()),
    }
}

// What is wrong with a row. `shown` are the rows before it, with which nothing is.
fn row_fault<T: Tree>(world: &World<T>, shown: &[NodeRef], row: NodeRef) -> Option<RowFault>
    requires rising { AllPairs (λ a b. IsTrue (is_below a b)) shown.now }
    requires shown { AreNotBarred world.now.hidden world.now.forest shown.now }
    ensures { result ≡ row_fault (policy_of world.now) world.now.forest row }
{
    let hidden = world.hidden.as_slice();
    let Some(node) = world.forest.node(row) else {
        return Some(RowFault::Absent);
    };
    if !node.is_dir() {
        Some(RowFault::Absent)
    } else if is_hidden(hidden, row) {
        Some(RowFault::Hidden)
    } else if is_inside(&world.forest, hidden, shown, row, node.parent()) {
        Some(RowFault::Inside)
    } else {
        None
    }
}

// The root place is safe.
fn check_root<T: Tree, A: Allocator + Copy>(
    world: &World<T>,
    table: &MountTable<A>,
    rows: &[NodeRef],
) -> Result<(), Gap>
    requires rising { AllPairs (λ a b. IsTrue (is_below a b)) rows.now }
    requires shown { AreNotBarred world.now.hidden world.now.forest rows.now }
    ensures { result_err result
        ≡ root_gap (policy_of world.now) world.now.forest table.now rows.now }
{
    match place_fault(world, table, rows, ROOT_PLACE) {
        Some((member, kind)) => Err(Gap::Root { member, kind }),
        None => Ok(()),
    }
}

// Each child of each row is safe, taken as a place.
fn check_children<T: Tree, A: Allocator + Copy>(
    world: &World<T>,
    table: &MountTable<A>,
    rows: &[NodeRef],
) -> Result<(), Gap>
    requires rising { AllPairs (λ a b. IsTrue (is_below a b)) rows.now }
    requires shown { AreNotBarred world.now.hidden world.now.forest rows.now }
    ensures { result_err result ≡ first_counted
        (children_gap (policy_of world.now) world.now.forest table.now rows.now) 1 rows.now }
{
    for (i, row) in rows.iter().enumerate() {
        check_children_of(world, table, rows, i as u64 + 1, *row)?;
    }
    Ok(())
}

// Each child of the row of this number is safe, taken as a place.
fn check_children_of<T: Tree, A: Allocator + Copy>(
    world: &World<T>,
    table: &MountTable<A>,
    rows: &[NodeRef],
    number: u64,
    row: NodeRef,
) -> Result<(), Gap>
    requires rising { AllPairs (λ a b. IsTrue (is_below a b)) rows.now }
    requires shown { AreNotBarred world.now.hidden world.now.forest rows.now }
    ensures { result_err result
        ≡ children_gap (policy_of world.now) world.now.forest table.now rows.now number row }
{
    world.forest.well_formed();
    let mut floor = None;
    while let Some(child) = world.forest.after(row, floor) {
        let child = child.number();
        check_child(world, table, rows, number, row.beside(child))?;
        floor = Some(child);
    }
    Ok(())
}

// A child of a row is safe, taken as a place.
fn check_child<T: Tree, A: Allocator + Copy>(
    world: &World<T>,
    table: &MountTable<A>,
    rows: &[NodeRef],
    row: u64,
    child: NodeRef,
) -> Result<(), Gap>
    requires rising { AllPairs (λ a b. IsTrue (is_below a b)) rows.now }
    requires shown { AreNotBarred world.now.hidden world.now.forest rows.now }
    ensures { result_err result
        ≡ place_gap (policy_of world.now) world.now.forest table.now rows.now row child }
{
    match place_fault(world, table, rows, child) {
        Some((member, kind)) => Err(Gap::Child {
            row,
            child,
            member,
            kind,
        }),
        None => Ok(()),
    }
}
