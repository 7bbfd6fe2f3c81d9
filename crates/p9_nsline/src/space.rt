//! A name space that is being made.

ghost use Rattle.std.specs.Prelude.{◌≡◌, ◌∷◌, ◌++◌, ◌<◌, [], IfErr, IfOk, Ok, OnErr, OnOk, length};
ghost use Rattle.p9_space.specs.Place.{file_ref};
ghost use Rattle.p9_space.specs.Table.{bound};
ghost use Rattle.p9_nsline.specs.Answer.{Acts};
ghost use Rattle.p9_nsline.specs.Space.{beginning};
ghost use Rattle.p9_nsline.specs.Bind.{member_nodes, taken_away, unmount_fault, with_table};

use crate::fault::{OpFault, Stop};
use crate::flags::Flags;
use p9_base::{NoMemory, NodeRef};
use p9_space::{Member, MountTable, ROOT_PLACE, Trail, UnmountError};
use std::alloc::Allocator;
use std::marker::Model;

/// The mount table and the current directory, with the reports of what failed so far: the line and
/// the fault.
#[derive(Drop)]
pub struct Space<A: Allocator + Copy> {
    table: MountTable<A>,
    current: Trail<A>,
    reports: Vec<(u64, OpFault), A>,
}

impl<A: Allocator + Copy> Model for Space<A> {
    ghost use Rattle.p9_nsline.specs.Space.{Space as SpaceOf};

    ghost Value = { SpaceOf };

    ghost view = { λ s. record {
      table = s.table;
      current = s.current;
      reports = s.reports.items;
    } };
}

impl<A: Allocator + Copy> Space<A> {
    /// A copy of the table, where the current directory is the root place, without reports.
    pub fn begin(alloc: A, table: &MountTable<A>) -> Result<Space<A>, NoMemory>
        ensures { IfOk result (λ space. space ≡ beginning table.now) }
    {
        Ok(Space {
            table: table.copy()?,
            current: Trail::at(alloc, ROOT_PLACE)?,
            reports: Vec::new(alloc),
        })
    }

    /// The mount table and the reports.
    pub fn into_parts(self) -> (MountTable<A>, Vec<(u64, OpFault), A>)
        ensures table { result.0 ≡ self.table }
        ensures reports { result.1.items ≡ self.reports }
    {
        let Space {
            table,
            current: _,
            reports,
        } = self;
        (table, reports)
    }

    /// The mount table.
    pub fn table(&self) -> &MountTable<A>
        ensures { result.now ≡ self.now.table }
    {
        &self.table
    }

    /// The trail of the current directory.
    pub fn current(&self) -> &Trail<A>
        ensures { result.now ≡ self.now.current }
    {
        &self.current
    }

    /// The file of a place.
    pub fn file(&self, place: NodeRef) -> NodeRef
        ensures { result ≡ file_ref place self.now.table }
    {
        self.table.file(place)
    }

    /// The nodes that stand for a place.
    pub fn member_nodes(&self, alloc: A, place: NodeRef) -> Result<Vec<NodeRef, A>, NoMemory>
        ensures { IfOk result (λ nodes. nodes.items ≡ member_nodes self.now.table place) }
    {
        let members = self.table.members(place);
        let nodes = members.as_slice().iter().map(member_node).collect(alloc)?;
        Ok(nodes)
    }

    /// Makes it the trail of the current directory.
    pub fn enter(&mut self, trail: Trail<A>)
        ensures { self.new ≡ record self.old { current = trail } }
    {
        self.current = trail;
    }

    /// Binds nodes in the place of the key, or before or after what is there. Where an
    /// allocation fails, the name space is unchanged.
    pub fn bind(&mut self, key: NodeRef, nodes: &[NodeRef], flags: Flags) -> Result<(), NoMemory>
        requires { 0 < length nodes.now }
        ensures ok { OnOk result (self.new ≡ with_table self.old
            (bound key nodes.now flags.order flags.create self.old.table)) }
        ensures err { OnErr result (self.new ≡ self.old) }
    {
        self.table.bind(key, nodes, flags.order, flags.create)
    }

    /// Takes the key's row away, or one node out of it.
    pub fn take_away(&mut self, key: NodeRef, node: Option<NodeRef>) -> Result<(), Stop>
        ensures { Acts (taken_away self.old key node) self.old self.new result }
    {
        match self.table.unmount(key, node) {
            Ok(()) => Ok(()),
            Err(error) => Err(Stop::Refused(unmount_fault(error))),
        }
    }

    /// Empties the mount table.
    pub fn clear(&mut self)
        ensures { self.new ≡ with_table self.old [] }
    {
        self.table.clear();
    }

    /// Reports the fault of a line.
    pub fn report(&mut self, line: u64, fault: OpFault) -> Result<(), NoMemory>
        ensures { OnOk result (self.new ≡ record self.old {
          reports = self.old.reports ++ (line, fault) ∷ [];
        }) }
    {
        self.reports.push((line, fault))?;
        Ok(())
    }
}

fn member_node(member: &Member) -> NodeRef
    ensures { result ≡ member.now.node }
{
    member.node
}

fn unmount_fault(error: UnmountError) -> OpFault
    ensures { result ≡ unmount_fault error }
{
    match error {
        UnmountError::NotMounted => OpFault::NotMounted,
        UnmountError::NotMember => OpFault::NotMember,
    }
}
