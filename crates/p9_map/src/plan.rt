//! Which nodes have boxes.

ghost use Rattle.std.specs.Prelude.{◌≡◌, ◌+◌, ◌-◌, ◌<◌, ◌||◌, IfOk, None, Some, count_by, length};
ghost use Rattle.std.specs.Prelude.{if◌then◌else◌, nat_lt, slice_index_or};
ghost use Rattle.p9_tree.specs.Forest.{is_dir_of};
ghost use Rattle.p9_cert.specs.Rows.{is_row};
ghost use Rattle.p9_map.specs.Order.{deeper};
ghost use Rattle.p9_map.specs.Plan.{AreFirst, IsDepth, IsPlan, boxes_max, chosen_at, is_within};
ghost use Rattle.p9_map.specs.Plan.{kept_count, ranked};

use crate::order::{Spot, all_spots};
use p9_base::{NoMemory, NodeRef};
use p9_tree::{Forest, Tree};
use std::alloc::{AllocError, Allocator};
use std::collections::BTreeSet;

/// The most boxes, if no more nodes are hidden directories or above one.
pub const BOXES_MAX: usize = 200;

/// The nodes that have boxes, in order; how many have none, and how many of these are marked.
#[derive(Drop)]
pub struct Plan<A: Allocator> {
    pub spots: Vec<Spot, A>,
    pub left_out: usize,
    pub marked_left_out: usize,
}

/// Which nodes of a forest have boxes. Servers come by number, and each directory before what is in
/// it, by number.
///
/// All nodes have one where they are no more than [`BOXES_MAX`]. Else those have one that are marked,
/// the directories that these are in, and all directories to the depth that fits. Of more than
/// [`BOXES_MAX`] the hidden directories have one and the directories that these are in, however many
/// they are, and the first of the others. The only error is that an allocation fails.
pub fn plan_of<T: Tree>(
    alloc: T::Alloc,
    forest: &Forest<T>,
    hidden: &BTreeSet<NodeRef, T::Alloc>,
    marked: &BTreeSet<NodeRef, T::Alloc>,
) -> Result<Plan<T::Alloc>, NoMemory>
    ensures { IfOk result (λ plan. IsPlan forest.now hidden.now.keys marked.now.keys
        plan.spots.items plan.left_out plan.marked_left_out) }
{
    let all = all_spots(alloc, forest)?;
    if all.as_slice().len() <= BOXES_MAX {
        return Ok(Plan {
            spots: all,
            left_out: 0,
            marked_left_out: 0,
        });
    }
    let spots = first_spots(alloc, forest, all.as_slice(), hidden, marked)?;
    let left_out = all.as_slice().len() - spots.as_slice().len();
    let marked_left_out = count_marked(all.as_slice(), marked)
        - count_marked(spots.as_slice(), marked);
    Ok(Plan {
        spots,
        left_out,
        marked_left_out,
    })
}

// How many of these nodes are marked.
fn count_marked<A: Allocator>(spots: &[Spot], marked: &BTreeSet<NodeRef, A>) -> usize
    ensures { result ≡ count_by (λ s. is_row marked.now.keys s.node) spots.now }
{
    spots
        .iter()
        .filter(|spot| is_marked(marked, spot.node))
        .count()
}

// Those that are kept, and the first others that get boxes.
fn first_spots<T: Tree>(
    alloc: T::Alloc,
    forest: &Forest<T>,
    all: &[Spot],
    hidden: &BTreeSet<NodeRef, T::Alloc>,
    marked: &BTreeSet<NodeRef, T::Alloc>,
) -> Result<Vec<Spot, T::Alloc>, NoMemory>
    ensures { IfOk result (λ spots.
        AreFirst forest.now hidden.now.keys marked.now.keys all.now spots.items) }
{
    let ranked = ranked_nodes(alloc, forest, all, hidden, marked)?;
    let ranked = ranked.as_slice();
    let spots = chosen(alloc, ranked, depth_that_fits(ranked))?;
    Ok(spots)
}

// A node, and at which depth it gets a box: at 0 the nodes that are noted, at one more than its own a
// directory, and at none another file; and whether it is kept at any.
#[derive(Clone, Copy)]
struct Ranked {
    spot: Spot,
    rank: Option<u64>,
    kept: bool,
}

// The nodes with their ranks. A node is noted where it is marked or above one that is noted: where the
// noted one that comes next is deeper. So is one kept that is hidden.
fn ranked_nodes<T: Tree>(
    alloc: T::Alloc,
    forest: &Forest<T>,
    spots: &[Spot],
    hidden: &BTreeSet<NodeRef, T::Alloc>,
    marked: &BTreeSet<NodeRef, T::Alloc>,
) -> Result<Vec<Ranked, T::Alloc>, NoMemory>
    ensures { IfOk result (λ found. found.items
        ≡ ranked forest.now hidden.now.keys marked.now.keys spots.now) }
{
    let mut ranked = Vec::new(alloc);
    let mut noted_depth = 0;
    let mut kept_depth = 0;
    for done in 0..spots.len() {
        let spot = spot_before(spots, done);
        let noted = is_noted(marked, spot, noted_depth);
        let kept = is_noted(hidden, spot, kept_depth);
        ranked.push(Ranked {
            spot,
            rank: rank(forest, spot, noted),
            kept,
        })?;
        noted_depth = depth_with(spot, noted, noted_depth);
        kept_depth = depth_with(spot, kept, kept_depth);
    }
    ranked.reverse();
    Ok(ranked)
}

// The last node but so many.
fn spot_before(spots: &[Spot], done: usize) -> Spot
    requires { done < length spots.now }
    ensures { result ≡ slice_index_or spots.now (length spots.now - (done + 1)) result }
{
    spots[spots.len() - (done + 1)]
}

// Whether a node is noted, where the noted one that comes next is in so many directories.
fn is_noted<A: Allocator>(marked: &BTreeSet<NodeRef, A>, spot: Spot, noted_depth: u64) -> bool
    ensures { result ≡ (nat_lt spot.depth noted_depth || is_row marked.now.keys spot.node) }
{
    spot.depth < noted_depth || is_marked(marked, spot.node)
}

// In how many directories the noted node is that comes next, from a node on.
fn depth_with(spot: Spot, is_noted: bool, noted_depth: u64) -> u64
    ensures { result ≡ (if is_noted then spot.depth else noted_depth) }
{
    if is_noted { spot.depth } else { noted_depth }
}

// Whether a node is marked.
fn is_marked<A: Allocator>(marked: &BTreeSet<NodeRef, A>, node: NodeRef) -> bool
    ensures { result ≡ is_row marked.now.keys node }
{
    marked.contains(&node)
}

// The rank of a node.
fn rank<T: Tree>(forest: &Forest<T>, spot: Spot, is_noted: bool) -> Option<u64>
    ensures { result ≡ (if is_noted then Some 0
        else if is_dir_of spot.node forest.now then Some (deeper spot.depth) else None) }
{
    if is_noted {
        return Some(0);
    }
    match forest.node(spot.node) {
        Some(node) if node.is_dir() => Some(spot.depth.saturating_add(1)),
        _ => None,
    }
}

// The greatest depth to which no more nodes have boxes than may.
fn depth_that_fits(ranked: &[Ranked]) -> u64
    ensures { IsDepth ranked.now result }
{
    for depth in 1..BOXES_MAX as u64 {
        if count_within(ranked, depth + 1) > BOXES_MAX {
            return depth;
        }
    }
    BOXES_MAX as u64
}

// How many nodes get boxes at a depth.
fn count_within(ranked: &[Ranked], depth: u64) -> usize
    ensures { result ≡ count_by (is_within depth) ranked.now }
{
    ranked.iter().filter(|r| is_within(r, depth)).count()
}

// Whether a node gets a box at a depth.
fn is_within(ranked: &Ranked, depth: u64) -> bool
    ensures { result ≡ is_within depth ranked.now }
{
    match ranked.rank {
        Some(rank) => rank <= depth,
        None => false,
    }
}

// Those that are kept, and the first others that get boxes at a depth.
fn chosen<A: Allocator + Copy>(
    alloc: A,
    ranked: &[Ranked],
    depth: u64,
) -> Result<Vec<Spot, A>, AllocError>
    ensures { IfOk result (λ spots. spots.items
        ≡ chosen_at depth (boxes_max - kept_count ranked.now) ranked.now) }
{
    let mut left = BOXES_MAX.saturating_sub(count_kept(ranked));
    let mut spots = Vec::new(alloc);
    for node in ranked {
        if node.kept {
            spots.push(node.spot)?;
        } else if left > 0 && is_within(node, depth) {
            spots.push(node.spot)?;
            left -= 1;
        }
    }
    Ok(spots)
}

// How many nodes are kept.
fn count_kept(ranked: &[Ranked]) -> usize
    ensures { result ≡ kept_count ranked.now }
{
    ranked.iter().filter(|node| node.kept).count()
}
