//! Which entries a tour goes on from.

ghost use Rattle.std.specs.Prelude.{◌≡◌, ◌≢◌, IfOk, List, None, OnOk, Some};
ghost use Rattle.p9_base.specs.declared.node_ref.NodeRef.{NodeRef};
ghost use Rattle.p9_view.specs.Met.{met_at, nodes_of};

use p9_base::{NoMemory, NodeRef};
use p9_space::Member;
use std::alloc::Allocator;
use std::collections::BTreeMap;

/// The indices of the entries that a tour goes on from, by the nodes of their members in order.
#[derive(Drop)]
pub(crate) struct Met<A: Allocator + Copy> {
    by_nodes: BTreeMap<Vec<NodeRef, A>, usize, A>,
}

impl<A: Allocator + Copy> Met<A> {
    /// That of a tour without entries. This takes no memory.
    pub fn new(alloc: A) -> Met<A>
        ensures { (nodes : List NodeRef) → met_at result nodes ≡ None }
    {
        Met {
            by_nodes: BTreeMap::new(alloc),
        }
    }

    /// The index of the entry with these nodes, if there is one.
    pub fn get(&self, nodes: &[NodeRef]) -> Option<usize>
        ensures { result ≡ met_at self.now nodes.now }
    {
        self.by_nodes.get(nodes).copied()
    }

    /// Gives nodes an index. Where an allocation fails, a part of it may be there.
    pub fn insert(&mut self, nodes: Vec<NodeRef, A>, index: usize) -> Result<(), NoMemory>
        ensures at { OnOk result (met_at self.new nodes.items ≡ Some index) }
        ensures others { OnOk result ((others : List NodeRef) → others ≢ nodes.items
            → met_at self.new others ≡ met_at self.old others) }
    {
        self.by_nodes.insert(nodes, index)?;
        Ok(())
    }
}

/// The nodes of members, in order. The only error is that an allocation fails.
pub(crate) fn nodes_of<A: Allocator + Copy>(
    alloc: A,
    members: &[Member],
) -> Result<Vec<NodeRef, A>, NoMemory>
    ensures { IfOk result (λ nodes. nodes.items ≡ nodes_of members.now) }
{
    Ok(members.iter().map(|member| member.node).collect(alloc)?)
}
