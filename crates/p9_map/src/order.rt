//! All nodes of all servers, each directory before what is in it.

ghost use Rattle.std.specs.Prelude.{◌≡◌, IfOk, option_map};
ghost use Rattle.p9_map.specs.Order.{AreAll, child_spot, dir_of, next_beside, next_root, next_spot};
ghost use Rattle.p9_map.specs.Order.{root_spot};

use p9_base::{NoMemory, NodeRef};
use p9_tree::{Forest, Tree};

/// A node, and how many directories it is in.
#[derive(Clone, Copy)]
pub struct Spot {
    pub node: NodeRef,
    pub depth: u64,
}

/// All nodes: servers by number, and of each its root, and then what is in a directory right after
/// it, by number.
pub(crate) fn all_spots<T: Tree>(
    alloc: T::Alloc,
    forest: &Forest<T>,
) -> Result<Vec<Spot, T::Alloc>, NoMemory>
    ensures { IfOk result (λ spots. AreAll forest.now spots.items) }
{
    let mut spots = Vec::new(alloc);
    let mut next = root_of(forest, 0);
    for _ in 0..u64::MAX {
        let Some(spot) = next else {
            return Ok(spots);
        };
        spots.push(spot)?;
        next = after(forest, spot);
    }
    Err(NoMemory)
}

// What comes after a node: the first node in it, or else the next one beside it or beside a directory
// that it is in, or else the root of the next server.
#[tactic(auto, unfolding(crate::specs::Order::next_spot))]
fn after<T: Tree>(forest: &Forest<T>, spot: Spot) -> Option<Spot>
    ensures { result ≡ next_spot forest.now spot }
{
    match child(forest, spot.node, None, spot.depth.saturating_add(1)) {
        Some(next) => Some(next),
        None => match beside(forest, spot) {
            Some(next) => Some(next),
            None => next_root(forest, spot.node.server),
        },
    }
}

// The root of the next server.
fn next_root<T: Tree>(forest: &Forest<T>, server: u16) -> Option<Spot>
    ensures { result ≡ next_root forest.now server }
{
    if server == u16::MAX {
        None
    } else {
        root_of(forest, server + 1)
    }
}

// The root of a server.
fn root_of<T: Tree>(forest: &Forest<T>, server: u16) -> Option<Spot>
    ensures { result ≡ root_spot forest.now server }
{
    let node = NodeRef { server, number: 0 };
    match forest.node(node) {
        Some(_) => Some(Spot { node, depth: 0 }),
        None => None,
    }
}

// The child of least number above the floor, which is in so many directories.
fn child<T: Tree>(forest: &Forest<T>, dir: NodeRef, floor: Option<u64>, depth: u64) -> Option<Spot>
    ensures { result ≡ child_spot forest.now dir floor depth }
{
    let child = forest.after(dir, floor)?;
    Some(Spot {
        node: dir.beside(child.number()),
        depth,
    })
}

// The directory that a node is in.
pub(crate) fn dir_of<T: Tree>(forest: &Forest<T>, at: NodeRef) -> Option<NodeRef>
    ensures { result ≡ dir_of forest.now at }
{
    let parent = forest.node(at)?.parent()?;
    Some(at.beside(parent))
}

// The next node beside this one, or else beside the nearest directory that it is in and that has one.
fn beside<T: Tree>(forest: &Forest<T>, spot: Spot) -> Option<Spot>
    ensures { result ≡ next_beside forest.now spot.node.number spot }
{
    let mut here = spot;
    for _ in 0..spot.node.number {
        let dir = dir_of(forest, here.node)?;
        match child(forest, dir, Some(here.node.number), here.depth) {
            Some(next) => return Some(next),
            None => {
                here = Spot {
                    node: dir,
                    depth: here.depth.saturating_sub(1),
                }
            }
        }
    }
    None
}
