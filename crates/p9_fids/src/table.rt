//! The fids of a session.

ghost use Rattle.std.specs.Prelude.{◌≡◌, ◌⊎◌, ◌≤◌, None, Some, List, length, slice_get, IfErr, IfSome};
ghost use Rattle.std.specs.Prelude.{IsSome, count_by, nat_lt};
ghost use Rattle.std.specs.Prelude.{◌∷◌, [], IfNone, OnErr, OnOk};
ghost use Rattle.std.specs.Option.{option_copied, option_map};
ghost use Rattle.p9_base.specs.declared.fault.Fault.TheVariants.{OutOfMemory};
ghost use Rattle.std.specs.List.{All, AllByRecursion, list_any};
ghost use Rattle.std.specs.Map.{keys_of, values_of};
ghost use Rattle.p9_space.specs.Channel.{Fits, trail_of};
ghost use Rattle.p9_space.specs.Table.{MountRow};
ghost use Rattle.p9_fids.specs.Fid.{changed_fid, fid_at, is_open_on, open_count};
ghost use Rattle.p9_fids.specs.Fids.{IsFids, IsLeast};
ghost use Rattle.p9_fids.specs.Fid.{opened_as};
ghost use Rattle.p9_fids.specs.Fid.{put_fault, trailed, with_fid, without_fid};
ghost use Rattle.p9_fids.specs.Held.{AllFit, FitTogether, HeldFits, fid_of, no_fids};

use crate::fid::Fid;
use crate::opened::Opened;
use p9_base::{Fault, NOFID, NoMemory, NodeRef};
use p9_space::{Channels, MountTable, Way};
use std::alloc::Allocator;
use std::collections::BTreeMap;
use std::marker::Model;

/// The most fids of a session.
pub const FIDS_MAX: usize = 1024;

/// The fids of a session: at most [`FIDS_MAX`], by strictly rising number, none of them [`NOFID`].
/// It is seen as the list of the fids with their numbers, and so as a finite map, and beside that
/// as the list of the rows that their places have in a mount table.
///
/// It keeps to a mount table whose rows these are: a fid that is found, changed or taken has its
/// rows there as long as each that is added or moved has.
#[derive(Drop)]
pub struct FidTable<A: Allocator + Copy> {
    fids: Fids<A>,
}

impl<A: Allocator + Copy> Model for FidTable<A> {
    ghost use Rattle.p9_fids.specs.Fids.{IsFids};
    ghost use Rattle.p9_fids.specs.Held.{HeldFids, fid_of, held_fids, map_values};

    ghost Value = { HeldFids };

    ghost view = { λ t. held_fids t.fids.entries };

    ghost invariant = { λ t. IsFids (map_values fid_of t.fids.entries) };
}

impl<A: Allocator + Copy> FidTable<A> {
    /// No fids. This takes no memory.
    pub fn new(alloc: A) -> FidTable<A>
        ensures { result ≡ no_fids }
    {
        FidTable {
            fids: BTreeMap::new(alloc),
        }
    }

    /// How many fids there are.
    pub fn len(&self) -> usize
        ensures { result ≡ length self.now.fids }
    {
        self.fids.len()
    }

    /// The fid of this number, or `None` where there is none.
    pub fn get(&self, fid: u32) -> Option<&Fid<A>>
        ensures fid { option_map fid_of (option_copied result) ≡ fid_at fid self.now.fids }
        ensures fits { (table : List MountRow) → AllFit table self.now →
            IfSome (option_copied result) (HeldFits table) }
    {
        self.fids.get(&fid)
    }

    /// What is kept of each table: its numbers rise strictly, none is [`NOFID`], and there are at
    /// most [`FIDS_MAX`]. This does nothing when it runs; it is for a caller that has to know so.
    pub fn well_formed(&self)
        ensures { IsFids self.now.fids }
    {
        let _fids = &self.fids;
    }

    /// The least number of a fid, or `None` where there is no fid.
    pub fn first(&self) -> Option<u32>
        ensures first { result ≡ option_map (λ row. row.0) (slice_get self.now.fids 0) }
        ensures least { IfSome result (IsLeast self.now.fids) }
    {
        first_of(&self.fids)
    }

    /// Why this fid can't be added: [`NOFID`] is [`Fault::UnknownFid`]; a fid that is there,
    /// [`Fault::FidInUse`]; more than [`FIDS_MAX`] of them, [`Fault::TooManyFids`]; tested in this
    /// order.
    pub fn put_fault(&self, fid: u32) -> Option<Fault>
        ensures { result ≡ put_fault fid self.now.fids }
    {
        if fid == NOFID {
            Some(Fault::UnknownFid)
        } else if self.fids.contains_key(&fid) {
            Some(Fault::FidInUse)
        } else if self.fids.len() >= FIDS_MAX {
            Some(Fault::TooManyFids)
        } else {
            None
        }
    }

    /// Adds a fid, unless [`FidTable::put_fault`] returns why not, or an allocation fails, which is
    /// [`Fault::OutOfMemory`]. At a refusal the fids are unchanged, and the new one is
    /// dropped.
    pub fn put(&mut self, fid: u32, held: Fid<A>) -> Result<(), Fault>
        ensures ok { OnOk result ((put_fault fid self.old.fids ≡ None) × (self.new.fids
            ≡ with_fid fid held.fid self.old.fids)) }
        ensures err { IfErr result (λ fault. (put_fault fid self.old.fids ≡ Some fault)
            ⊎ ((put_fault fid self.old.fids ≡ None) × (fault ≡ OutOfMemory))) }
        ensures unchanged { OnErr result (self.new ≡ self.old) }
        ensures fits { (table : List MountRow) → AllFit table self.old → HeldFits table held →
            AllFit table self.new }
    {
        if let Some(fault) = self.put_fault(fid) {
            return Err(fault);
        }
        self.add(fid, held)?;
        Ok(())
    }

    /// Adds a fid of which [`FidTable::put_fault`] returns no fault, unless an allocation fails. The
    /// fids are unchanged then, and the new one is dropped.
    pub fn add(&mut self, fid: u32, held: Fid<A>) -> Result<(), NoMemory>
        requires { put_fault fid self.old.fids ≡ None }
        ensures ok { OnOk result (self.new.fids ≡ with_fid fid held.fid self.old.fids) }
        ensures unchanged { OnErr result (self.new ≡ self.old) }
        ensures fits { (table : List MountRow) → AllFit table self.old → HeldFits table held →
            AllFit table self.new }
    {
        self.fids.insert(fid, held)?;
        Ok(())
    }

    /// Ends a fid, and gives what it was, or `None` where there is none. The others stay.
    pub fn take(&mut self, fid: u32) -> Option<Fid<A>>
        ensures value { option_map fid_of result ≡ fid_at fid self.old.fids }
        ensures after { self.new.fids ≡ without_fid fid self.old.fids }
        ensures value_fits { (table : List MountRow) → AllFit table self.old →
            IfSome result (HeldFits table) }
        ensures after_fits { (table : List MountRow) → AllFit table self.old →
            AllFit table self.new }
    {
        self.fids.remove(&fid)
    }

    /// Ends the fid of the least number, and gives that number and what it was, or `None` where
    /// there is no fid. The others stay.
    pub fn take_first(&mut self) -> Option<(u32, Fid<A>)>
        ensures some { IfSome result (λ row. self.old.fids ≡ (row.0, row.1.fid) ∷ self.new.fids) }
        ensures none { IfNone result ((self.old.fids ≡ []) × (self.new ≡ self.old)) }
        ensures value_fits { (table : List MountRow) → AllFit table self.old →
            IfSome result (λ row. HeldFits table row.1) }
        ensures after_fits { (table : List MountRow) → AllFit table self.old →
            AllFit table self.new }
    {
        self.fids.pop_first()
    }

    /// Moves a fid to where the channels lead. What it is open for stays.
    pub fn move_to(&mut self, fid: u32, channels: Channels<A>)
        requires { IsSome (fid_at fid self.old.fids) }
        ensures moved { self.new.fids ≡ changed_fid fid (trailed (trail_of channels)) self.old.fids }
        ensures fits { (table : List MountRow) → AllFit table self.old → Fits table channels →
            AllFit table self.new }
    {
        let held = self.fids.get_mut(&fid).unwrap();
        held.channels = channels;
    }

    /// Moves a fid to where a way leads, which has no more places than the fid. What it is open for
    /// stays. This takes no memory.
    pub fn follow(&mut self, fid: u32, way: &Way)
        requires there { IsSome (fid_at fid self.old.fids) }
        requires room { IfSome (fid_at fid self.old.fids) (λ held. length (trail_of way.now)
            ≤ length held.trail) }
        requires fits { FitTogether self.old way.now }
        ensures moved { self.new.fids ≡ changed_fid fid (trailed (trail_of way.now)) self.old.fids }
        ensures fits { (table : List MountRow) → AllFit table self.old → Fits table way.now →
            AllFit table self.new }
    {
        let held = self.fids.get_mut(&fid).unwrap();
        held.channels.follow(way);
    }

    /// Says what a fid is open for, whatever it was open for. It is where it was.
    pub fn set_opened(&mut self, fid: u32, opened: Opened)
        requires { IsSome (fid_at fid self.old.fids) }
        ensures opened { self.new.fids ≡ changed_fid fid (opened_as opened) self.old.fids }
        ensures fits { (table : List MountRow) → AllFit table self.old → AllFit table self.new }
    {
        let held = self.fids.get_mut(&fid).unwrap();
        held.opened = Some(opened);
    }

    /// Moves a fid to where the channels lead, and says what it is open for there.
    pub fn open_at(&mut self, fid: u32, channels: Channels<A>, opened: Opened)
        requires { IsSome (fid_at fid self.old.fids) }
        ensures opened { self.new.fids ≡ changed_fid fid (λ held. opened_as opened
            (trailed (trail_of channels) held)) self.old.fids }
        ensures fits { (table : List MountRow) → AllFit table self.old → Fits table channels →
            AllFit table self.new }
    {
        let held = self.fids.get_mut(&fid).unwrap();
        *held = Fid {
            user: held.user,
            channels,
            opened: Some(opened),
        };
    }

    /// Whether an open fid has the node as its file, by the rows that the fids keep of the table.
    /// This looks no place up, and asks no fid after the first that has.
    pub fn has_open_by_rows(&self, table: &MountTable<A>, node: NodeRef) -> bool
        requires { AllFit table.now self.now }
        ensures { result ≡ nat_lt 0 (open_count table.now node self.now.fids) }
    {
        has_open_by_rows(&self.fids, table, node)
    }

    /// How many open fids have the node as their file: the first member of the place where their
    /// trail ends.
    pub fn open_count(&self, table: &MountTable<A>, node: NodeRef) -> usize
        ensures { result ≡ open_count table.now node self.now.fids }
    {
        count_open(&self.fids, table, node)
    }
}

type Fids<A> = BTreeMap<u32, Fid<A>, A>;

// The least number.
fn first_of<A: Allocator + Copy>(fids: &Fids<A>) -> Option<u32>
    ensures first { result ≡ option_map (λ entry. entry.0) (slice_get fids.now.entries 0) }
    ensures least { IfSome result (λ fid. AllByRecursion (λ other. fid ≤ other)
        (keys_of fids.now.entries)) }
{
    fids.first_key_value().map(|(fid, _)| *fid)
}

// Whether a fid is open, and has the node as its file by its row.
fn has_open_by_rows<A: Allocator + Copy>(
    fids: &Fids<A>,
    table: &MountTable<A>,
    node: NodeRef,
) -> bool
    requires { All (HeldFits table.now) (values_of fids.now.entries) }
    ensures { result ≡ list_any (λ held. is_open_on table.now node held.fid)
        (values_of fids.now.entries) }
{
    fids.values().any(|fid| is_open_by_row(fid, table, node))
}

// How many fids are open, and have the node as their file.
fn count_open<A: Allocator + Copy>(fids: &Fids<A>, table: &MountTable<A>, node: NodeRef) -> usize
    ensures { result ≡ count_by (λ held. is_open_on table.now node held.fid)
        (values_of fids.now.entries) }
{
    fids.values()
        .filter(|fid| is_open_on(fid, table, node))
        .count()
}

// Whether the fid is open, and has the node as its file. Its last place is looked up in the table.
fn is_open_on<A: Allocator + Copy>(fid: &Fid<A>, table: &MountTable<A>, node: NodeRef) -> bool
    ensures { result ≡ is_open_on table.now node fid.now.fid }
{
    fid.opened.is_some() && table.file(fid.channels.trail().here()) == node
}

// Whether the fid is open, and has the node as its file, which is found by the row that it keeps.
fn is_open_by_row<A: Allocator + Copy>(fid: &Fid<A>, table: &MountTable<A>, node: NodeRef) -> bool
    requires { HeldFits table.now fid.now }
    ensures { result ≡ is_open_on table.now node fid.now.fid }
{
    fid.opened.is_some() && fid.channels.file(table) == node
}
