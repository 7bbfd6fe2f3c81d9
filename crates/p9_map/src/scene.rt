//! What a picture shows.

ghost use Rattle.std.specs.Prelude.{◌≡◌, [], IfOk, None, OnOk, Some, slice_get};
ghost use Rattle.std.specs.Option.{option_copied};
ghost use Rattle.p9_cert.specs.Rows.{is_row};
ghost use Rattle.p9_space.specs.Place.{root_place};
ghost use Rattle.p9_space.specs.Table.{MountRow};
ghost use Rattle.p9_map.specs.Scene.{AreJoinedBy, AreThose, is_come_to, is_in_row, is_in_table};
ghost use Rattle.p9_map.specs.Scene.{is_marked};
ghost use Rattle.p9_map.specs.Walk.{hops_from};

use crate::walk::{Hop, hops_of};
use p9_base::{NoMemory, NodeRef};
use p9_cert::Certificate;
use p9_judge::Breach;
use p9_space::{Member, MountTable};
use p9_tree::Tree;
use p9_world::World;
use std::alloc::Allocator;
use std::collections::BTreeSet;

/// A world with its mount table, and what is said of it.
#[derive(Drop)]
pub(crate) struct Scene<'a, T: Tree> {
    pub world: &'a World<T>,
    pub table: &'a MountTable<T::Alloc>,
    /// The directories that clients can reach.
    pub reached: Option<&'a Certificate<T::Alloc>>,
    /// The way into what is hidden, and its hops.
    pub breach: Option<&'a Breach<T::Alloc>>,
    pub hops: Vec<Hop, T::Alloc>,
}

impl<'a, T: Tree> Scene<'a, T> {
    /// The scene of a yes.
    pub fn of_yes(
        alloc: T::Alloc,
        world: &'a World<T>,
        table: &'a MountTable<T::Alloc>,
        reached: &'a Certificate<T::Alloc>,
    ) -> Scene<'a, T>
        ensures world { result.world.now ≡ world.now }
        ensures table { result.table.now ≡ table.now }
        ensures reached { option_copied result.reached ≡ Some reached.now }
        ensures breach { option_copied result.breach ≡ None }
        ensures hops { result.hops.items ≡ [] }
    {
        Scene {
            world,
            table,
            reached: Some(reached),
            breach: None,
            hops: Vec::new(alloc),
        }
    }

    /// The scene of a no: no directory is drawn as one that clients can reach.
    pub fn of_no(
        alloc: T::Alloc,
        world: &'a World<T>,
        table: &'a MountTable<T::Alloc>,
        breach: &'a Breach<T::Alloc>,
    ) -> Result<Scene<'a, T>, NoMemory>
        ensures world { IfOk result (λ scene. scene.world.now ≡ world.now) }
        ensures table { IfOk result (λ scene. scene.table.now ≡ table.now) }
        ensures reached { IfOk result (λ scene. option_copied scene.reached ≡ None) }
        ensures breach { IfOk result (λ scene. option_copied scene.breach ≡ Some breach.now) }
        ensures hops { IfOk result (λ scene. scene.hops.items
            ≡ hops_from world.now.forest root_place breach.now.steps.items breach.now.member) }
    {
        let hops = hops_of(alloc, world, breach)?;
        Ok(Scene {
            world,
            table,
            reached: None,
            breach: Some(breach),
            hops,
        })
    }

    /// The nodes that are to have boxes: what is hidden, the walk, and what is mounted and where.
    pub fn marked(&self, alloc: T::Alloc) -> Result<BTreeSet<NodeRef, T::Alloc>, NoMemory>
        ensures { IfOk result (λ marked. AreThose marked.keys
            (is_marked self.now.world.now.hidden self.now.hops.items self.now.table.now)) }
    {
        let world = self.world;
        let mut marked = node_set(alloc, world.hidden.as_slice())?;
        mark_hops(self.hops.as_slice(), &mut marked)?;
        mark_rows(self.table, &mut marked)?;
        Ok(marked)
    }
}

/// The set of some nodes.
pub(crate) fn node_set<A: Allocator + Copy>(
    alloc: A,
    nodes: &[NodeRef],
) -> Result<BTreeSet<NodeRef, A>, NoMemory>
    ensures { IfOk result (λ set. AreThose set.keys (is_row nodes.now)) }
{
    let mut set = BTreeSet::new(alloc);
    for node in nodes {
        let _ = set.insert(*node)?;
    }
    Ok(set)
}

// Adds the nodes that the walk comes to.
fn mark_hops<A: Allocator + Copy>(
    hops: &[Hop],
    marked: &mut BTreeSet<NodeRef, A>,
) -> Result<(), NoMemory>
    ensures { OnOk result (AreJoinedBy marked.old.keys marked.new.keys (is_come_to hops.now)) }
{
    for hop in hops {
        let _ = marked.insert(hop.to)?;
    }
    Ok(())
}

// Adds the nodes of the rows of the mount table.
fn mark_rows<A: Allocator + Copy, B: Allocator + Copy>(
    table: &MountTable<B>,
    marked: &mut BTreeSet<NodeRef, A>,
) -> Result<(), NoMemory>
    ensures { OnOk result (AreJoinedBy marked.old.keys marked.new.keys (is_in_table table.now)) }
{
    for row in 0..table.len() {
        mark_row_at(table, row, marked)?;
    }
    Ok(())
}

// Adds the nodes of the row of this position.
fn mark_row_at<A: Allocator + Copy, B: Allocator + Copy>(
    table: &MountTable<B>,
    position: usize,
    marked: &mut BTreeSet<NodeRef, A>,
) -> Result<(), NoMemory>
    ensures { OnOk result ((row : MountRow) → slice_get table.now position ≡ Some row
        → AreJoinedBy marked.old.keys marked.new.keys (λ at. is_in_row at row)) }
{
    match table.row(position) {
        Some((key, members)) => mark_row(key, members.as_slice(), marked),
        None => Ok(()),
    }
}

// Adds the nodes of a row of the mount table.
fn mark_row<A: Allocator + Copy>(
    key: NodeRef,
    members: &[Member],
    marked: &mut BTreeSet<NodeRef, A>,
) -> Result<(), NoMemory>
    ensures { OnOk result (AreJoinedBy marked.old.keys marked.new.keys
        (λ at. is_in_row at (key, members.now))) }
{
    let _ = marked.insert(key)?;
    for member in members {
        let _ = marked.insert(member.node)?;
    }
    Ok(())
}
