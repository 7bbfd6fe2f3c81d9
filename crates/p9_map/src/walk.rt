//! The walk of a breach.

ghost use Rattle.std.specs.Prelude.{◌≡◌, ◌<◌, IfOk, IfSome, length, position};
ghost use Rattle.p9_base.specs.NodeRef.{same_node};
ghost use Rattle.p9_space.specs.Place.{root_place};
ghost use Rattle.p9_map.specs.Walk.{hops_from, number_on, place_after};

use p9_base::{NoMemory, NodeRef};
use p9_judge::{Breach, Step};
use p9_space::ROOT_PLACE;
use p9_tree::Tree;
use p9_world::World;
use std::alloc::Allocator;

/// From one node to the next: to a directory's child, or from a place to a member of it.
#[derive(Clone, Copy)]
pub(crate) struct Hop {
    pub from: NodeRef,
    pub to: NodeRef,
}

/// The hops of a breach, from the root place to its member.
pub(crate) fn hops_of<T: Tree>(
    alloc: T::Alloc,
    world: &World<T>,
    breach: &Breach<T::Alloc>,
) -> Result<Vec<Hop, T::Alloc>, NoMemory>
    ensures { IfOk result (λ hops. hops.items
        ≡ hops_from world.now.forest root_place breach.now.steps.items breach.now.member) }
{
    let steps = breach.steps.as_slice();
    let mut hops = Vec::new(alloc);
    let mut place = ROOT_PLACE;
    for step in steps {
        let (from, to) = (place, step.member);
        hops.push(Hop { from, to })?;
        place = place_after(world, step);
        let (from, to) = (step.member, place);
        hops.push(Hop { from, to })?;
    }
    let (from, to) = (place, breach.member);
    hops.push(Hop { from, to })?;
    Ok(hops)
}

// The place that a step leads to.
fn place_after<T: Tree>(world: &World<T>, step: &Step) -> NodeRef
    ensures { result ≡ place_after world.now.forest step.now }
{
    match world.forest.child(step.member, &step.name) {
        Some(child) => step.member.beside(child.number()),
        None => step.member,
    }
}

/// The number of a node on the walk of a breach, from 1: that of the step that passes it, or one more
/// for the member that the walk leads to.
pub(crate) fn number_on<A: Allocator>(breach: &Breach<A>, node: NodeRef) -> Option<usize>
    ensures { result ≡ number_on breach.now.steps.items breach.now.member node }
{
    let steps = breach.steps.as_slice();
    match position_on(steps, node) {
        Some(position) => Some(position + 1),
        None if breach.member == node => Some(steps.len() + 1),
        None => None,
    }
}

// The position of the first step that passes a node.
fn position_on(steps: &[Step], node: NodeRef) -> Option<usize>
    ensures position { result ≡ position (λ s. same_node s.member node) steps.now }
    ensures within { IfSome result (λ i. i < length steps.now) }
{
    steps.iter().position(|step| step.member == node)
}
