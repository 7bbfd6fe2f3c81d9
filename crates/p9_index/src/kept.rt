//! A node in an allocation of its own.

ghost use Rattle.std.specs.Prelude.{◌≡◌, ◌+◌, ◌≤◌, IfOk, IsSome, IsTrue, OnErr, OnOk, length, option_map};
ghost use Rattle.std.specs.Option.{ForSome};
ghost use Rattle.p9_base.specs.Name.{is_name};
ghost use Rattle.p9_tree.specs.Bytes.{cut_to, file_max, overwritten};
ghost use Rattle.p9_tree.specs.Change.{changed};
ghost use Rattle.p9_tree.specs.Node.{IsTellable, marked, touched, with_bytes, with_owner};
ghost use Rattle.p9_tree.specs.Saved.{saved_node, with_fields};

use p9_base::{NoMemory, Permissions, User};
use p9_tree::{Change, Entry, Node, Saved};
use std::alloc::Allocator;
use std::marker::Model;

/// A node in an allocation of its own, so that a map has no more than a pointer to it. It is seen as the
/// node.
#[derive(Drop)]
pub(crate) struct KeptNode<A: Allocator> {
    node: Box<Node<A>, A>,
}

impl<A: Allocator> Model for KeptNode<A> {
    ghost use Rattle.p9_tree.specs.Node.{Node as NodeOf};

    ghost Value = { NodeOf };

    ghost view = { λ kept. kept.node.value };
}

impl<A: Allocator> KeptNode<A> {
    /// Keeps the node. The only error is a failed allocation.
    pub fn new(alloc: A, node: Node<A>) -> Result<KeptNode<A>, NoMemory>
        ensures { IfOk result (λ kept. kept ≡ node) }
    {
        Ok(KeptNode {
            node: Box::new(alloc, node)?,
        })
    }

    /// The node.
    pub fn node(&self) -> &Node<A>
        ensures { result.now ≡ self.now }
    {
        self.node.as_ref()
    }

    /// Its entry.
    pub fn entry(&self) -> Option<Entry>
        ensures { result ≡ option_map (λ parent. record { parent = parent; name = self.now.name })
            self.now.parent }
    {
        self.node.entry()
    }

    /// As [`Node::set_owner`].
    pub fn set_owner(&mut self, permissions: Permissions, uid: User, gid: User)
        ensures node { self.new ≡ with_owner permissions uid gid self.old }
        ensures tellable { IsTellable self.new }
    {
        self.node.set_owner(permissions, uid, gid);
    }

    /// As [`Node::set_fields`].
    pub fn set_fields(&mut self, saved: &Saved<'_>)
        ensures node { self.new ≡ with_fields (saved_node saved.entry.now) self.old }
        ensures tellable { IsTellable self.new }
    {
        self.node.set_fields(saved);
    }

    /// As [`Node::change`].
    pub fn change(&mut self, change: &Change) -> Result<(), NoMemory>
    where
        A: Copy,
        requires named { ForSome change.now.name (λ name. IsSome self.old.parent) }
        requires small { ForSome change.now.length (λ size. size ≤ file_max) }
        ensures ok { OnOk result (self.new ≡ changed change.entry.now self.old) }
        ensures name { OnOk result (ForSome change.entry.now.name (λ name. IsTrue (is_name name))) }
        ensures tellable { OnOk result (IsTellable self.new) }
        ensures err { OnErr result (self.new ≡ self.old) }
    {
        self.node.change(change)
    }

    /// As [`Node::mark`].
    pub fn mark(&mut self, user: User, clock: u32)
        ensures node { self.new ≡ marked user clock self.old }
        ensures tellable { IsTellable self.new }
    {
        self.node.mark(user, clock);
    }

    /// As [`Node::touch`].
    pub fn touch(&mut self, clock: u32)
        ensures node { self.new ≡ touched clock self.old }
        ensures tellable { IsTellable self.new }
    {
        self.node.touch(clock);
    }

    /// As [`Node::write`].
    pub fn write(&mut self, offset: u64, bytes: &[u8]) -> Result<(), NoMemory>
        requires { offset + length bytes.now ≤ file_max }
        ensures ok { OnOk result (self.new ≡ with_bytes (overwritten offset bytes.now) self.old) }
        ensures err { OnErr result (self.new ≡ self.old) }
    {
        self.node.write(offset, bytes)
    }

    /// As [`Node::cut`].
    pub fn cut(&mut self, size: u64)
        ensures { self.new ≡ with_bytes (cut_to size) self.old }
    {
        self.node.cut(size);
    }
}
