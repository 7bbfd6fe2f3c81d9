//! The links between the boxes of a plan.

ghost use Rattle.std.specs.Prelude.{◌≡◌, ◌<◌, All, IfOk, IfSome, OnOk, length, position};
ghost use Rattle.p9_map.specs.Line.{IsBetween, is_at};

use crate::item::{Link, LinkKind};
use crate::order::{Spot, dir_of};
use p9_base::{NoMemory, NodeRef};
use p9_space::{Member, MountTable};
use p9_tree::{Forest, Tree};
use std::alloc::Allocator;

/// The links of boxes: each node to the directory that it is in, and then the members of the mount
/// table, row by row. What has no box has no link.
pub(crate) fn links<T: Tree, B: Allocator + Copy>(
    alloc: T::Alloc,
    forest: &Forest<T>,
    table: &MountTable<B>,
    spots: &[Spot],
) -> Result<Vec<Link, T::Alloc>, NoMemory>
    ensures { IfOk result (λ links. All (IsBetween spots.now) links.items) }
{
    let mut links = entry_links(alloc, forest, spots)?;
    for row in 0..table.len() {
        if let Some((key, members)) = table.row(row) {
            push_row(spots, row, key, members.as_slice(), &mut links)?;
        }
    }
    Ok(links)
}

// The links of each node to the directory that it is in.
fn entry_links<T: Tree>(
    alloc: T::Alloc,
    forest: &Forest<T>,
    spots: &[Spot],
) -> Result<Vec<Link, T::Alloc>, NoMemory>
    ensures { IfOk result (λ links. All (IsBetween spots.now) links.items) }
{
    let mut links = Vec::new(alloc);
    for to in 0..spots.len() {
        if let Some(from) = position_of_dir(forest, spots, spots[to].node) {
            let kind = LinkKind::Entry;
            links.push(Link { from, to, kind })?;
        }
    }
    Ok(links)
}

// The position of the box of the directory that a node is in.
fn position_of_dir<T: Tree>(forest: &Forest<T>, spots: &[Spot], node: NodeRef) -> Option<usize>
    ensures { IfSome result (λ i. i < length spots.now) }
{
    position_of(spots, dir_of(forest, node)?)
}

// The position of a node's box.
fn position_of(spots: &[Spot], node: NodeRef) -> Option<usize>
    ensures position { result ≡ position (is_at node) spots.now }
    ensures within { IfSome result (λ i. i < length spots.now) }
{
    spots.iter().position(|spot| spot.node == node)
}

// Adds the links of a row of the mount table.
fn push_row<A: Allocator>(
    spots: &[Spot],
    row: usize,
    key: NodeRef,
    members: &[Member],
    links: &mut Vec<Link, A>,
) -> Result<(), NoMemory>
    requires { All (IsBetween spots.now) links.old.items }
    ensures { OnOk result (All (IsBetween spots.now) links.new.items) }
{
    let Some(from) = position_of(spots, key) else {
        return Ok(());
    };
    for i in 0..members.len() {
        if let Some(to) = position_of(spots, members[i].node) {
            let kind = LinkKind::Member {
                row,
                position: i + 1,
                of: members.len(),
                create: members[i].create,
            };
            links.push(Link { from, to, kind })?;
        }
    }
    Ok(())
}
