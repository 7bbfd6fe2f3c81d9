//! Channels: a trail whose places remember where their rows are in a mount table.

ghost use Rattle.std.specs.Prelude.{◌≡◌, ◌++◌, ◌∷◌, ◌<◌, ◌≤◌, ◌⊎◌, [], List, Ok, Err, IfErr, IfOk, IfSome};
ghost use Rattle.std.specs.Prelude.{OnErr, OnOk, length, map, replicate, slice_get};
ghost use Rattle.std.specs.Option.{option_map};
ghost use Rattle.p9_base.specs.declared.fault.Fault.TheVariants.{OutOfMemory};
ghost use Rattle.p9_space.specs.Channel.{Fits, rows_of, trail_of};
ghost use Rattle.p9_table.specs.Place.{file_ref};
ghost use Rattle.p9_table.specs.Rights.{who_view};
ghost use Rattle.p9_table.specs.Table.{MountRow, members_of, row_position};
ghost use Rattle.p9_table.specs.Trail.{IsTrail, here, places_max, stepped, upward};
ghost use Rattle.p9_space.specs.Walk.{step_of, walk};
ghost use Rattle.p9_tree.specs.Forest.{node_of};

use crate::walk::{Arrival, arrive_down, arrive_up};
use crate::way::{Way, advance_on};
use p9_base::{Fault, NoMemory, NodeRef};
use p9_table::{Members, MountTable, ROOT_PLACE, Trail, Who, last, position_above};
use p9_tree::{Forest, Tree};
use std::alloc::Allocator;
use std::marker::Model;

/// A trail, and for each of its places the position of its row in a mount table, if it has one
/// there.
///
/// As long as the mount table doesn't change, what is mounted at a place is found by its row,
/// without a look-up of its key.
#[derive(Drop)]
pub struct Channels<A: Allocator> {
    trail: Trail<A>,
    rows: Vec<Option<usize>, A>,
}

impl<A: Allocator> Model for Channels<A> {
    ghost use Rattle.p9_space.specs.Channel.{Channels as ChannelsOf};

    ghost Value = { ChannelsOf };

    ghost view = { λ c. record { trail = c.trail; rows = c.rows.items } };
}

impl<A: Allocator + Copy> Channels<A> {
    /// A copy of the trail, with the rows of its places. The only error is that an allocation fails.
    pub fn of<B: Allocator + Copy>(
        table: &MountTable<B>,
        trail: &Trail<A>,
    ) -> Result<Channels<A>, NoMemory>
        ensures trail { IfOk result (λ channels. trail_of channels ≡ trail.now) }
        ensures fits { IfOk result (λ channels. Fits table.now channels) }
    {
        let trail = trail.copy()?;
        let rows = trail
            .as_slice()
            .iter()
            .map(|key| table.position(*key))
            .collect(trail.allocator())?;
        Ok(Channels { trail, rows })
    }

    /// Other channels of the same places and rows. The only error is that an allocation fails.
    pub fn copy(&self) -> Result<Channels<A>, NoMemory>
        ensures { IfOk result (λ copy. copy ≡ self.now) }
    {
        Ok(Channels {
            trail: self.trail.copy()?,
            rows: self.rows.clone()?,
        })
    }

    /// Channels of so many places, each of them this one. The only error is that an allocation
    /// fails.
    pub fn filled<B: Allocator + Copy>(
        alloc: A,
        table: &MountTable<B>,
        place: NodeRef,
        count: usize,
    ) -> Result<Channels<A>, NoMemory>
        requires some { 0 < count }
        requires few { count ≤ places_max }
        ensures trail { IfOk result (λ channels. trail_of channels ≡ replicate count place) }
        ensures fits { IfOk result (λ channels. Fits table.now channels) }
    {
        let trail = Trail::filled(alloc, place, count)?;
        let mut rows = Vec::new(alloc);
        rows.resize(count, table.position(place))?;
        Ok(Channels { trail, rows })
    }

    /// Channels of the places and rows of a way. The only error is that an allocation fails.
    pub fn along<B: Allocator + Copy>(
        alloc: A,
        table: &MountTable<B>,
        way: &Way,
    ) -> Result<Channels<A>, NoMemory>
        requires { Fits table.now way.now }
        ensures { IfOk result (λ channels. channels ≡ way.now) }
    {
        way.well_formed();
        let mut channels = Channels::filled(alloc, table, ROOT_PLACE, way.places().len())?;
        channels.follow(way);
        Ok(channels)
    }

    /// Goes where a way leads, which has no more places than there are. This takes no memory.
    pub fn follow(&mut self, way: &Way)
        requires trail { length (trail_of way.now) ≤ length (trail_of self.old) }
        requires rows { length way.now.rows ≤ length self.old.rows }
        ensures { self.new ≡ way.now }
    {
        way.well_formed();
        self.trail.follow(way.places());
        self.rows.truncate(way.rows().len());
        self.rows.copy_from_slice(way.rows());
    }

    /// The places.
    pub fn trail(&self) -> &Trail<A>
        ensures { result.now ≡ trail_of self.now }
    {
        &self.trail
    }

    /// The places alone.
    pub fn into_trail(self) -> Trail<A>
        ensures { result ≡ trail_of self }
    {
        self.trail
    }

    /// The rows of the places.
    pub(crate) fn rows(&self) -> &[Option<usize>]
        ensures { result.now ≡ self.now.rows }
    {
        self.rows.as_slice()
    }

    /// What is mounted at the last place: the members of its row, or its key alone.
    pub fn members<'a, B: Allocator + Copy>(&self, table: &'a MountTable<B>) -> Members<'a>
        requires { Fits table.now self.now }
        ensures members { result ≡ members_of (here (trail_of self.now)) table.now }
        ensures not_empty { 0 < length result }
    {
        self.trail.well_formed();
        let row = self.rows[self.trail.len() - 1];
        table.members_at(row, self.trail.here())
    }

    /// The file of the last place: its first member, whether it exists or not.
    pub fn file<B: Allocator + Copy>(&self, table: &MountTable<B>) -> NodeRef
        requires { Fits table.now self.now }
        ensures { result ≡ file_ref (here (trail_of self.now)) table.now }
    {
        self.trail.well_formed();
        let row = self.rows[self.trail.len() - 1];
        table.file_at(row, self.trail.here())
    }

    /// Goes on to a place. Where an allocation fails the channels are unchanged.
    pub fn push<B: Allocator + Copy>(
        &mut self,
        table: &MountTable<B>,
        place: NodeRef,
    ) -> Result<(), NoMemory>
        requires { length (trail_of self.old) < places_max }
        ensures ok { OnOk result (trail_of self.new ≡ trail_of self.old ++ place ∷ []) }
        ensures fits { OnOk result (Fits table.now self.old → Fits table.now self.new) }
        ensures err { OnErr result (self.new ≡ self.old) }
    {
        self.push_with_row(place, table.position(place))
    }

    // The same, where the place has this row in the table.
    fn push_with_row(&mut self, place: NodeRef, row: Option<usize>) -> Result<(), NoMemory>
        requires { length (trail_of self.old) < places_max }
        ensures ok { OnOk result (trail_of self.new ≡ trail_of self.old ++ place ∷ []) }
        ensures fits { OnOk result ((table : List MountRow) → row ≡ row_position place table →
            Fits table self.old → Fits table self.new) }
        ensures err { OnErr result (self.new ≡ self.old) }
    {
        self.rows.reserve(1)?;
        self.trail.push(place)?;
        self.rows.push(row)?;
        Ok(())
    }

    /// Goes back by one place, as `..` does; at the place of attachment it stays. This takes no
    /// memory.
    pub fn step_up(&mut self)
        ensures trail { trail_of self.new ≡ upward (trail_of self.old) }
        ensures fits { (table : List MountRow) → Fits table self.old → Fits table self.new }
    {
        self.trail.step_up();
        self.rows.truncate(self.trail.len());
    }
}

/// One step from the last of places whose rows are these, as [`crate::find_arrival_on`].
pub(crate) fn find_arrival_by_rows<'a, T: Tree, A: Allocator + Copy, B: Allocator + Copy>(
    forest: &'a Forest<T>,
    table: &MountTable<A>,
    trail: &[NodeRef],
    rows: &[Option<usize>],
    name: &str,
    who: Option<Who<'_, B>>,
) -> Result<Arrival<'a, T::Alloc>, Fault>
    requires trail { IsTrail trail.now }
    requires rows { rows.now ≡ rows_of table.now trail.now }
    ensures ok { IfOk result (λ arrival. step_of forest.now table.now
        (option_map who_view who.entry) trail.now name.now ≡ Ok arrival.step) }
    ensures err { IfErr result (λ fault. step_of forest.now table.now
        (option_map who_view who.entry) trail.now name.now ≡ Err fault) }
    ensures row { IfOk result (λ arrival. arrival.row
        ≡ row_position (here (stepped trail.now arrival.step)) table.now) }
    ensures at { IfOk result (λ arrival. arrival.at
        ≡ file_ref (here (stepped trail.now arrival.step)) table.now) }
    ensures file { IfOk result (λ arrival. node_of arrival.at forest.now ≡ Some arrival.file.now) }
    ensures places { IfOk result (λ arrival. length (stepped trail.now arrival.step) ≤ places_max) }
{
    let members = last_members(table, trail, rows);
    if name == ".." {
        let row = rows[position_above(trail)];
        arrive_up(forest, table, trail, members.as_slice(), row)
    } else {
        arrive_down(forest, table, trail, members.as_slice(), name, who)
    }
}

// What is mounted at the last of places whose rows are these.
fn last_members<'a, A: Allocator + Copy>(
    table: &'a MountTable<A>,
    trail: &[NodeRef],
    rows: &[Option<usize>],
) -> Members<'a>
    requires trail { IsTrail trail.now }
    requires rows { rows.now ≡ rows_of table.now trail.now }
    ensures { result ≡ members_of (here trail.now) table.now }
{
    let row = rows[trail.len() - 1];
    table.members_at(row, last(trail))
}

/// Walks on from the last place along names, as [`crate::resolve`]. Where a step is refused or an
/// allocation fails, the channels are unchanged.
pub fn advance<T: Tree, A: Allocator + Copy, B: Allocator + Copy>(
    forest: &Forest<T>,
    table: &MountTable<A>,
    channels: &mut Channels<B>,
    names: &[&str],
    who: Option<Who<'_, B>>,
) -> Result<(), Fault>
    requires { Fits table.now channels.old }
    ensures ok { OnOk result (walk forest.now table.now (option_map who_view who.entry)
        (trail_of channels.old) (map (λ n. n.now) names.now) ≡ Ok (trail_of channels.new)) }
    ensures fits { Fits table.now channels.new }
    ensures err { IfErr result (λ fault. (fault ≡ OutOfMemory) ⊎
        (walk forest.now table.now (option_map who_view who.entry) (trail_of channels.old)
        (map (λ n. n.now) names.now) ≡ Err fault)) }
    ensures unchanged { OnErr result (channels.new ≡ channels.old) }
{
    let mut way = Way::of(channels);
    advance_on(forest, table, &mut way, names, who)?;
    *channels = Channels::along(*channels.rows.allocator(), table, &way)?;
    Ok(())
}
