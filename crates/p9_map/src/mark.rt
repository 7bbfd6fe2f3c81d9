//! How a box is marked.

ghost use Rattle.std.specs.Prelude.{◌≡◌};
ghost use Rattle.std.specs.Option.{option_copied};
ghost use Rattle.p9_tree.specs.Forest.{is_dir_of};
ghost use Rattle.p9_tree.specs.Inside.{is_inside};
ghost use Rattle.p9_map.specs.Mark.{class_of, look_of, mark_of, rows_of, walk_number};
ghost use Rattle.p9_map.specs.Walk.{walk_in};

use crate::scene::Scene;
use crate::walk::number_on;
use p9_base::NodeRef;
use p9_cert::{is_hidden, is_inside};
use p9_judge::Breach;
use p9_tree::Tree;
use p9_world::World;
use std::alloc::Allocator;

/// What a node is, as its box shows it.
#[derive(Clone, Copy)]
pub(crate) enum Look {
    /// Inside a hidden directory.
    Inside,
    /// A hidden directory.
    Hidden,
    /// A directory that clients can reach.
    Reached,
    /// Any other.
    Plain,
}

impl Look {
    /// The name of its style.
    pub fn class(self) -> &'static str
        ensures { result.now ≡ class_of self }
    {
        match self {
            Look::Inside => "inside",
            Look::Hidden => "hidden",
            Look::Reached => "reached",
            Look::Plain => "plain",
        }
    }
}

/// How a box is marked: what its node is, and its number on the walk of a breach.
#[derive(Clone, Copy)]
pub(crate) struct Mark {
    pub look: Look,
    pub is_dir: bool,
    pub number: Option<usize>,
}

impl Mark {
    /// The mark of a node.
    pub fn of<T: Tree>(scene: &Scene<'_, T>, at: NodeRef) -> Mark
        ensures { result ≡ mark_of scene.now.world.now (rows_of (option_copied scene.now.reached))
            (walk_in (option_copied scene.now.breach)) at }
    {
        Mark {
            look: look_of(scene, at),
            is_dir: is_dir(scene.world, at),
            number: walk_number(scene.breach, at),
        }
    }
}

// Whether a node is a directory.
fn is_dir<T: Tree>(world: &World<T>, at: NodeRef) -> bool
    ensures { result ≡ is_dir_of at world.now.forest }
{
    match world.forest.node(at) {
        Some(node) => node.is_dir(),
        None => false,
    }
}

// The number of a node on the walk, where there is one.
fn walk_number<A: Allocator>(breach: Option<&Breach<A>>, at: NodeRef) -> Option<usize>
    ensures { result ≡ walk_number (walk_in (option_copied breach.entry)) at }
{
    number_on(breach?, at)
}

// What a node is.
fn look_of<T: Tree>(scene: &Scene<'_, T>, at: NodeRef) -> Look
    ensures { result
        ≡ look_of scene.now.world.now (rows_of (option_copied scene.now.reached)) at }
{
    let world = scene.world;
    if is_in_hidden(world, at) {
        return Look::Inside;
    }
    if is_hidden(world.hidden.as_slice(), at) {
        return Look::Hidden;
    }
    match scene.reached {
        Some(rows) if rows.contains(at) => Look::Reached,
        _ => Look::Plain,
    }
}

// Whether a node is inside a hidden directory.
#[tactic(auto, unfolding(p9_tree::specs::Inside::is_inside))]
fn is_in_hidden<T: Tree>(world: &World<T>, at: NodeRef) -> bool
    ensures { result ≡ is_inside at world.now.hidden world.now.forest }
{
    let hidden = world.hidden.as_slice();
    match world.forest.node(at) {
        Some(node) => is_inside(&world.forest, hidden, &[], at, node.parent()),
        None => false,
    }
}
