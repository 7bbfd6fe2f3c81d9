//! The members of a union directory.

ghost use Rattle.std.specs.Prelude.{◌≡◌, ◌≢◌, ◌++◌, ◌∷◌, ◌<◌, ◌↔◌, [], true, IsTrue, length};
ghost use Rattle.std.specs.Prelude.{unwrap_or, slice_get, remove, position, IfSome, IfOk, OnOk};
ghost use Rattle.std.specs.Prelude.{OnErr};
ghost use Rattle.std.specs.Option.{option_copied};
ghost use Rattle.p9_table.specs.Row.{brought, is_of, member};

use p9_base::{NoMemory, NodeRef};
use std::alloc::{AllocError, Allocator};
use std::marker::Model;

/// A member of a union directory.
#[derive(Clone, Copy, Debug, PartialEq, Eq)]
pub struct Member {
    pub node: NodeRef,
    /// Whether files may be created in it.
    pub create: bool,
}

/// Where a bind puts its new members, as bind(1): in the place of what is there, or before it or
/// after it in the union.
#[derive(Clone, Copy, Debug, PartialEq, Eq)]
pub enum Order {
    Replace,
    Before,
    After,
}

/// The members that stand for a key of the mount table, in the order in which a walk tries them.
#[derive(Drop)]
pub(crate) struct Row<A: Allocator> {
    members: Vec<Member, A>,
}

impl<A: Allocator> Model for Row<A> {
    ghost use Rattle.std.specs.Prelude.{List};
    ghost use Rattle.p9_table.specs.declared.row.Member.{Member};

    ghost Value = { List Member };

    ghost view = { λ r. r.members.items };
}

impl<A: Allocator + Copy> Row<A> {
    /// A row without members. This takes no memory.
    pub fn new(alloc: A) -> Row<A>
        ensures { result ≡ [] }
    {
        Row {
            members: Vec::new(alloc),
        }
    }

    /// The members.
    pub fn as_slice(&self) -> &[Member]
        ensures { result.now ≡ self.now }
    {
        self.members.as_slice()
    }

    /// Adds a member after the others. Where an allocation fails, the row is unchanged.
    pub fn push(&mut self, member: Member) -> Result<(), NoMemory>
        ensures ok { OnOk result (self.new ≡ self.old ++ member ∷ []) }
        ensures err { OnErr result (self.new ≡ self.old) }
    {
        self.members.push(member)?;
        Ok(())
    }

    /// Adds members after the others. Where an allocation fails, the row is unchanged.
    pub fn extend(&mut self, members: &[Member]) -> Result<(), NoMemory>
        ensures ok { OnOk result (self.new ≡ self.old ++ members.now) }
        ensures err { OnErr result (self.new ≡ self.old) }
    {
        self.members.extend_from_slice(members)?;
        Ok(())
    }

    /// Adds what a bind brings after the others: the nodes, of which the first permits creation
    /// where `create` says so, and the others don't. Where an allocation fails, the row is
    /// unfinished.
    pub fn push_brought(&mut self, nodes: &[NodeRef], create: bool) -> Result<(), NoMemory>
        ensures ok { OnOk result (self.new ≡ self.old ++ brought nodes.now create) }
    {
        if let Some((first, others)) = nodes.split_first() {
            self.push(Member {
                node: *first,
                create,
            })?;
            for node in others {
                self.push(Member {
                    node: *node,
                    create: false,
                })?;
            }
        }
        Ok(())
    }

    /// The position of the first member that is the node.
    pub fn position(&self, node: NodeRef) -> Option<usize>
        ensures first { result ≡ position (is_of node) self.now }
        ensures within { IfSome result (λ i. i < length self.now) }
    {
        self.members.iter().position(|m| m.node == node)
    }

    /// Takes a member out; those after it close up.
    pub fn remove(&mut self, position: usize)
        requires { position < length self.old }
        ensures { self.new ≡ remove self.old position }
    {
        let _ = self.members.remove(position);
    }
}

impl<A: Allocator + Copy> Clone for Row<A> {
    ghost is_clone = { λ old new. new ≡ old };

    fn clone(&self) -> Result<Row<A>, AllocError> {
        let mut row = Row::new(*self.members.allocator());
        row.members.extend_from_slice(self.as_slice())?;
        Ok(row)
    }
}

/// What stands for a key: the members of its row, or the key alone.
#[derive(Drop)]
pub struct Members<'a> {
    row: Option<&'a [Member]>,
    alone: [Member; 1],
}

impl<'a> Model for Members<'a> {
    ghost use Rattle.std.specs.Prelude.{List};
    ghost use Rattle.std.specs.Option.{option_map_or};
    ghost use Rattle.p9_table.specs.declared.row.Member.{Member};

    ghost Value = { List Member };

    ghost view = { λ m. option_map_or (λ r. r.now) m.row m.alone };
}

impl<'a> Members<'a> {
    /// The members of the row, or where there is no row the key alone, which permits creation.
    pub(crate) fn new(row: Option<&'a [Member]>, key: NodeRef) -> Members<'a>
        ensures { result ≡ unwrap_or (option_copied row.entry) (member true key ∷ []) }
    {
        Members {
            row,
            alone: [Member {
                node: key,
                create: true,
            }],
        }
    }

    /// The members.
    pub fn as_slice(&self) -> &[Member]
        ensures { result.now ≡ self.now }
    {
        match self.row {
            Some(members) => members,
            None => &self.alone,
        }
    }

    /// How many members there are.
    pub fn len(&self) -> usize
        ensures { result ≡ length self.now }
    {
        self.as_slice().len()
    }

    /// Whether there is none.
    pub fn is_empty(&self) -> bool
        ensures { IsTrue result ↔ (self.now ≡ []) }
    {
        self.as_slice().is_empty()
    }

    /// The member at a position, counted from 0.
    pub fn get(&self, position: usize) -> Option<Member>
        ensures { result ≡ slice_get self.now position }
    {
        self.as_slice().get(position).copied()
    }
}
