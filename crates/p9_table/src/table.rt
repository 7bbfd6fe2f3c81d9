//! The mount table.

ghost use Rattle.std.specs.Prelude.{◌≡◌, ◌++◌, ◌<◌, ◌↔◌, [], IsTrue, IsSome, is_some, length};
ghost use Rattle.std.specs.Prelude.{remove, slice_get, OnOk, OnErr, IfOk, IfErr};
ghost use Rattle.std.specs.Bool.{OnFalse};
ghost use Rattle.std.specs.Option.{option_copied, option_map};
ghost use Rattle.p9_table.specs.Place.{file_ref};
ghost use Rattle.p9_table.specs.Row.{brought, joined};
ghost use Rattle.p9_table.specs.Table.{IsTable, bound, standing, unmounted, members_of, row_of};
ghost use Rattle.p9_table.specs.Table.{row_position, with_row, without_row};

use crate::row::{Member, Members, Order, Row};
use indexmap::IndexMap;
use p9_base::{NoMemory, NodeRef};
use std::alloc::Allocator;
use std::hash::{BuildHasherDefault, FoldHasher};
use std::marker::Model;
use thiserror::Error;

/// Why nothing is unmounted.
#[derive(Clone, Copy, Debug, PartialEq, Eq, Error)]
pub enum UnmountError {
    /// Nothing is mounted there.
    #[error("not mounted")]
    NotMounted,
    /// The node is no member of the union.
    #[error("not in the union")]
    NotMember,
}

type Rows<A> = IndexMap<NodeRef, Row<A>, BuildHasherDefault<FoldHasher>, A>;

/// The mount table: rows of a key and its members, as bind(1). A walk that comes to a key goes on
/// in the members.
///
/// It is seen as the list of its rows, in the order of their making. No row is empty, and no key
/// has two.
#[derive(Drop)]
pub struct MountTable<A: Allocator + Copy> {
    alloc: A,
    rows: Rows<A>,
}

impl<A: Allocator + Copy> Model for MountTable<A> {
    ghost use Rattle.std.specs.Prelude.{List};
    ghost use Rattle.p9_table.specs.Table.{MountRow, IsTable};

    ghost Value = { List MountRow };

    ghost view = { λ t. t.rows.entries };

    ghost invariant = { λ t. IsTable t.rows.entries };
}

impl<A: Allocator + Copy> MountTable<A> {
    /// A table without rows. This takes no memory.
    pub fn new(alloc: A) -> MountTable<A>
        ensures { result ≡ [] }
    {
        MountTable {
            alloc,
            rows: IndexMap::new(alloc),
        }
    }

    /// Binds nodes in the place of the key, or before or after what is there, as bind(1). The
    /// first node permits creation where `create` says so; the others don't.
    ///
    /// A row that is replaced keeps its place in the table, and a new one goes last. A bind before
    /// or after a key without a row finds the key itself there, without creation. Where an
    /// allocation fails, the table is unchanged.
    pub fn bind(
        &mut self,
        key: NodeRef,
        nodes: &[NodeRef],
        order: Order,
        create: bool,
    ) -> Result<(), NoMemory>
        requires { 0 < length nodes.now }
        ensures ok { OnOk result (self.new ≡ bound key nodes.now order create self.old) }
        ensures err { OnErr result (self.new ≡ self.old) }
    {
        let row = self.joined(key, nodes, order, create)?;
        self.rows.insert(key, row)?;
        Ok(())
    }

    // The row that a bind makes.
    fn joined(
        &self,
        key: NodeRef,
        nodes: &[NodeRef],
        order: Order,
        create: bool,
    ) -> Result<Row<A>, NoMemory>
        ensures { IfOk result (λ row. row ≡ joined order (brought nodes.now create)
            (standing key self.now)) }
    {
        let mut row = Row::new(self.alloc);
        match order {
            Order::Replace => row.push_brought(nodes, create)?,
            Order::Before => {
                row.push_brought(nodes, create)?;
                self.push_standing(&mut row, key)?;
            }
            Order::After => {
                self.push_standing(&mut row, key)?;
                row.push_brought(nodes, create)?;
            }
        }
        Ok(row)
    }

    // Adds what a bind before or after the key finds there.
    fn push_standing(&self, row: &mut Row<A>, key: NodeRef) -> Result<(), NoMemory>
        ensures ok { OnOk result (row.new ≡ row.old ++ standing key self.now) }
    {
        match self.rows.get(&key) {
            Some(found) => row.extend(found.as_slice()),
            None => row.push(Member {
                node: key,
                create: false,
            }),
        }
    }

    /// Takes the key's row away, or one member out of it: the first that is the node. A row that
    /// loses its last member goes, and the rows after one that goes close up.
    ///
    /// Without a row this is [`UnmountError::NotMounted`], and where no member is the node
    /// [`UnmountError::NotMember`]; the table is unchanged then. It takes no
    /// memory.
    pub fn unmount(&mut self, key: NodeRef, node: Option<NodeRef>) -> Result<(), UnmountError>
        ensures ok { OnOk result (unmounted key node self.old ≡ Ok self.new) }
        ensures err { IfErr result (λ e. unmounted key node self.old ≡ Err e) }
        ensures unchanged { OnErr result (self.new ≡ self.old) }
    {
        match node {
            None => self.unmount_row(key),
            Some(node) => self.unmount_member(key, node),
        }
    }

    fn unmount_row(&mut self, key: NodeRef) -> Result<(), UnmountError>
        ensures ok { OnOk result (unmounted key None self.old ≡ Ok self.new) }
        ensures err { IfErr result (λ e. unmounted key None self.old ≡ Err e) }
        ensures unchanged { OnErr result (self.new ≡ self.old) }
    {
        if self.remove_row(key) {
            Ok(())
        } else {
            Err(UnmountError::NotMounted)
        }
    }

    // Takes the key's row away, and returns whether there was one.
    fn remove_row(&mut self, key: NodeRef) -> bool
        ensures found { result ≡ is_some (row_of key self.old) }
        ensures removed { self.new ≡ without_row key self.old }
        ensures unchanged { OnFalse result (self.new ≡ self.old) }
    {
        self.rows.shift_remove(&key).is_some()
    }

    fn unmount_member(&mut self, key: NodeRef, node: NodeRef) -> Result<(), UnmountError>
        ensures ok { OnOk result (unmounted key (Some node) self.old ≡ Ok self.new) }
        ensures err { IfErr result (λ e. unmounted key (Some node) self.old ≡ Err e) }
        ensures unchanged { OnErr result (self.new ≡ self.old) }
    {
        let Some(row) = self.rows.get_mut(&key) else {
            return Err(UnmountError::NotMounted);
        };
        let Some(position) = row.position(node) else {
            return Err(UnmountError::NotMember);
        };
        if row.as_slice().len() > 1 {
            row.remove(position);
        } else {
            let _ = self.remove_row(key);
        }
        Ok(())
    }

    /// What stands for the key: the members of its row, or the key alone, which permits creation.
    pub fn members(&self, key: NodeRef) -> Members<'_>
        ensures members { result ≡ members_of key self.now }
        ensures not_empty { 0 < length result }
    {
        Members::new(self.rows.get(&key).map(|row| row.as_slice()), key)
    }

    /// The position of the key's row in the table, if it has one.
    pub fn position(&self, key: NodeRef) -> Option<usize>
        ensures { result ≡ row_position key self.now }
    {
        self.rows.get_index_of(&key)
    }

    /// The same as [`MountTable::members`], without a look-up of the key, by the position of its
    /// row, if it has one.
    pub fn members_at(&self, row: Option<usize>, key: NodeRef) -> Members<'_>
        requires { row ≡ row_position key self.now }
        ensures members { result ≡ members_of key self.now }
        ensures not_empty { 0 < length result }
    {
        self.well_formed();
        match row {
            Some(position) => Members::new(self.members_of_row(position), key),
            None => Members::new(None, key),
        }
    }

    // The members of the row at a position.
    fn members_of_row(&self, position: usize) -> Option<&[Member]>
        ensures { option_copied result ≡ option_map (λ row. row.1) (slice_get self.now position) }
    {
        let (_, row) = self.rows.get_index(position)?;
        Some(row.as_slice())
    }

    /// The file of a place: its first member, whether it exists or not.
    pub fn file(&self, place: NodeRef) -> NodeRef
        ensures { result ≡ file_ref place self.now }
    {
        self.file_at(self.position(place), place)
    }

    /// The same as [`MountTable::file`], without a look-up of the place, by the position of its row,
    /// if it has one.
    pub fn file_at(&self, row: Option<usize>, place: NodeRef) -> NodeRef
        requires { row ≡ row_position place self.now }
        ensures { result ≡ file_ref place self.now }
    {
        match self.members_at(row, place).get(0) {
            Some(member) => member.node,
            None => place,
        }
    }

    /// Takes all rows away.
    pub fn clear(&mut self)
        ensures { self.new ≡ [] }
    {
        self.rows.clear();
    }

    /// Another table of the same rows. The only error is that an allocation fails.
    pub fn copy(&self) -> Result<MountTable<A>, NoMemory>
        ensures { IfOk result (λ copy. copy ≡ self.now) }
    {
        Ok(MountTable {
            alloc: self.alloc,
            rows: self.rows.clone()?,
        })
    }

    /// What is kept of each table: no row is empty, and no key has two. This does nothing when it
    /// runs; it is for a caller that has to know so.
    pub fn well_formed(&self)
        ensures { IsTable self.now }
    {
        let _rows = &self.rows;
    }

    /// How many rows there are.
    pub fn len(&self) -> usize
        ensures { result ≡ length self.now }
    {
        self.rows.len()
    }

    /// Whether there is no row.
    pub fn is_empty(&self) -> bool
        ensures { IsTrue result ↔ (self.now ≡ []) }
    {
        self.rows.is_empty()
    }

    /// The key and the members of the row at a position, counted from 0.
    pub fn row(&self, position: usize) -> Option<(NodeRef, Members<'_>)>
        ensures { result ≡ slice_get self.now position }
    {
        let (key, row) = self.rows.get_index(position)?;
        Some((*key, Members::new(Some(row.as_slice()), *key)))
    }
}
