//! A tree as a vector of nodes.

ghost use Rattle.std.specs.Prelude.{◌≡◌, position};
ghost use Rattle.p9_tree.specs.Node.{has_number};
ghost use Rattle.p9_tree.specs.Saved.{saved_node, with_fields};
ghost use Rattle.p9_tree.specs.Server.{Server, WellFormed, with_changed};

use crate::change::Change;
use crate::journal::NoJournal;
use crate::new::New;
use crate::node::Node;
use crate::saved::Saved;
use crate::tree::Tree;
use p9_base::{Name, NoMemory, Permissions, User};
use std::alloc::Allocator;

/// A tree as a vector of its nodes, by rising number. Each look-up goes over all of them.
#[derive(Drop)]
pub struct PlainTree<A: Allocator + Copy> {
    alloc: A,
    nodes: Vec<Node<A>, A>,
    next: u64,
    ghost well_formed: { let server : Server = record { nodes = nodes.items; next = next } in
        WellFormed server },
}

impl<A: Allocator + Copy> Tree for PlainTree<A> {
    type Alloc = A;

    type Journal = NoJournal;

    ghost state = { λ t. record { nodes = t.nodes.items; next = t.next } };

    ghost well_formed = { λ t. t.well_formed };

    fn with_root(alloc: A) -> Result<Self, NoMemory> {
        let mut nodes = Vec::new(alloc);
        nodes.push(Node::root(alloc))?;
        Ok(PlainTree {
            alloc,
            nodes,
            next: 1,
        })
    }

    fn next(&self) -> u64 {
        self.next
    }

    fn node(&self, number: u64) -> Option<&Node<A>> {
        self.nodes.iter().find(|n| n.number() == number)
    }

    fn first_from(&self, number: u64) -> Option<&Node<A>> {
        self.nodes.iter().find(|n| n.is_from(number))
    }

    fn child(&self, dir: u64, name: &Name) -> Option<&Node<A>> {
        self.nodes.iter().find(|n| n.is_child(dir, name))
    }

    fn after(&self, dir: u64, floor: Option<u64>) -> Option<&Node<A>> {
        self.nodes
            .iter()
            .find(|n| n.is_in(dir) && n.is_above(floor))
    }

    fn set_root(&mut self, permissions: Permissions, uid: User, gid: User) {
        if let Some(at) = self.position(0) {
            self.nodes[at].set_owner(permissions, uid, gid);
        }
    }

    fn add(&mut self, dir: u64, new: &New<'_>) -> Result<u64, NoMemory> {
        let number = self.next;
        let node = Node::new(self.alloc, number, dir, new)?;
        self.nodes.push(node)?;
        self.next = number + 1;
        Ok(number)
    }

    fn put_back(&mut self, saved: &Saved<'_>) -> Result<(), NoMemory> {
        let Some(_entry) = saved.entry else {
            self.set_root_fields(saved);
            return Ok(());
        };
        let node = Node::restored(self.alloc, saved)?;
        self.nodes.push(node)?;
        self.next = saved.number + 1;
        Ok(())
    }

    fn skip_to(&mut self, next: u64) {
        self.next = next;
    }

    fn drop_leaf(&mut self, number: u64) {
        if let Some(at) = self.position(number) {
            let _ = self.nodes.remove(at);
        }
    }

    fn change(&mut self, number: u64, change: &Change) -> Result<(), NoMemory> {
        if let Some(at) = self.position(number) {
            self.nodes[at].change(change)?;
        }
        Ok(())
    }

    fn bump(&mut self, number: u64, user: User, clock: u32) {
        if let Some(at) = self.position(number) {
            self.nodes[at].mark(user, clock);
        }
    }

    fn touch(&mut self, number: u64, clock: u32) {
        if let Some(at) = self.position(number) {
            self.nodes[at].touch(clock);
        }
    }

    fn write(&mut self, number: u64, offset: u64, bytes: &[u8]) -> Result<(), NoMemory> {
        if let Some(at) = self.position(number) {
            self.nodes[at].write(offset, bytes)?;
        }
        Ok(())
    }

    fn cut(&mut self, number: u64, size: u64) {
        if let Some(at) = self.position(number) {
            self.nodes[at].cut(size);
        }
    }

    fn read_into(&self, number: u64, offset: u64, buffer: &mut [u8]) -> usize {
        match self.node(number) {
            Some(node) => node.read_into(offset, buffer),
            None => 0,
        }
    }
}

impl<A: Allocator + Copy> PlainTree<A> {
    // The position of the node of this number among all.
    fn position(&self, number: u64) -> Option<usize>
        ensures { result ≡ position (has_number number) self.now.nodes.items }
    {
        self.nodes.iter().position(|n| n.number() == number)
    }

    // Gives the root the fields that are saved.
    fn set_root_fields(&mut self, saved: &Saved<'_>)
        ensures { let was : Server = record { nodes = self.old.nodes.items; next = self.old.next } in
            let is : Server = record { nodes = self.new.nodes.items; next = self.new.next } in
            is ≡ with_changed 0 (with_fields (saved_node saved.entry.now)) was }
    {
        let Some(at) = self.position(0) else {
            return;
        };
        self.nodes[at].set_fields(saved);
    }
}
