//! Ways: channels that take no memory.

ghost use Rattle.std.specs.Prelude.{◌≡◌, ◌++◌, ◌∷◌, ◌<◌, ◌≤◌, [], List, Ok, Err, IfErr, IfOk, IfSome};
ghost use Rattle.std.specs.Prelude.{OnOk, Some, length, map};
ghost use Rattle.std.specs.Option.{option_map};
ghost use Rattle.p9_space.specs.Channel.{Fits, trail_of};
ghost use Rattle.p9_table.specs.Place.{file_ref};
ghost use Rattle.p9_table.specs.Rights.{who_view};
ghost use Rattle.p9_table.specs.Table.{MountRow, row_position};
ghost use Rattle.p9_table.specs.Trail.{IsTrail, here, places_max, stepped, upward};
ghost use Rattle.p9_space.specs.Walk.{step_of, walk};
ghost use Rattle.p9_tree.specs.Forest.{node_of};

use crate::channel::{Channels, find_arrival_by_rows};
use crate::walk::Arrival;
use p9_base::{Fault, NodeRef};
use p9_table::{MountTable, PLACES_MAX, ROOT_PLACE, Step, Who, last};
use p9_tree::{Forest, Tree};
use std::alloc::Allocator;
use std::marker::Model;

/// Channels that are kept in place, so that a walk along them takes no memory. They are seen as
/// [`Channels`] are.
#[derive(Drop)]
pub struct Way {
    places: [NodeRef; PLACES_MAX],
    rows: [Option<usize>; PLACES_MAX],
    // How many places there are.
    len: usize,
}

impl Model for Way {
    ghost use Rattle.std.specs.Prelude.{◌<◌, ◌≤◌, take};
    ghost use Rattle.p9_space.specs.Channel.{Channels as ChannelsOf};
    ghost use Rattle.p9_table.specs.Trail.{places_max};

    ghost Value = { ChannelsOf };

    ghost view = { λ w. record { trail = take w.len w.places; rows = take w.len w.rows } };

    ghost invariant = { λ w. (0 < w.len) × (w.len ≤ places_max) };
}

impl Way {
    /// The way of one place.
    pub fn at<A: Allocator + Copy>(table: &MountTable<A>, place: NodeRef) -> Way
        ensures trail { trail_of result ≡ place ∷ [] }
        ensures fits { Fits table.now result }
    {
        Way {
            places: [place; PLACES_MAX],
            rows: [table.position(place); PLACES_MAX],
            len: 1,
        }
    }

    /// The way of channels.
    pub fn of<A: Allocator + Copy>(channels: &Channels<A>) -> Way
        requires { length channels.now.rows ≡ length (trail_of channels.now) }
        ensures { result ≡ channels.now }
    {
        let trail = channels.trail();
        trail.well_formed();
        let len = trail.len();
        let mut places = [ROOT_PLACE; PLACES_MAX];
        places[..len].copy_from_slice(trail.as_slice());
        let mut rows = [None; PLACES_MAX];
        rows[..len].copy_from_slice(channels.rows());
        Way { places, rows, len }
    }

    /// What is kept of each way: it has at least one place, and at most [`PLACES_MAX`]. This does
    /// nothing when it runs; it is for a caller that has to know so.
    pub fn well_formed(&self)
        ensures { IsTrail (trail_of self.now) }
    {
        let _places = &self.places[..self.len];
    }

    /// The last place, at which the way has arrived.
    pub fn here(&self) -> NodeRef
        ensures { result ≡ here (trail_of self.now) }
    {
        self.well_formed();
        last(self.places())
    }

    /// The places.
    pub fn places(&self) -> &[NodeRef]
        ensures { result.now ≡ trail_of self.now }
    {
        &self.places[..self.len]
    }

    /// Their rows.
    pub(crate) fn rows(&self) -> &[Option<usize>]
        ensures { result.now ≡ self.now.rows }
    {
        &self.rows[..self.len]
    }

    /// Takes a step, where the place after it has this row in the table.
    pub fn take(&mut self, step: Step, row: Option<usize>)
        requires { length (stepped (trail_of self.old) step) ≤ places_max }
        ensures trail { trail_of self.new ≡ stepped (trail_of self.old) step }
        ensures fits { (table : List MountRow) →
            row ≡ row_position (here (stepped (trail_of self.old) step)) table →
            Fits table self.old → Fits table self.new }
    {
        match step {
            Step::Up => self.step_up(),
            Step::To(place) => self.push(place, row),
        }
    }

    // Goes back by one place, or stays at the place of attachment.
    fn step_up(&mut self)
        ensures trail { trail_of self.new ≡ upward (trail_of self.old) }
        ensures fits { (table : List MountRow) → Fits table self.old → Fits table self.new }
    {
        if self.len > 1 {
            self.len -= 1;
        }
    }

    // Goes on to a place that has this row.
    fn push(&mut self, place: NodeRef, row: Option<usize>)
        requires { length (trail_of self.old) < places_max }
        ensures trail { trail_of self.new ≡ trail_of self.old ++ place ∷ [] }
        ensures rows { self.new.rows ≡ self.old.rows ++ row ∷ [] }
    {
        self.places[self.len] = place;
        self.rows[self.len] = row;
        self.len += 1;
    }
}

/// One step of a walk from the last place, by any text as a name, and the file where it arrives. Without
/// a user it isn't tested whether a directory may be searched.
///
/// The first that applies is the fault: no member of the last place exists: [`Fault::PhaseError`];
/// none that exists is a directory: [`Fault::NotDirectory`]; for a name other than `..`, none of
/// these directories may be searched by the user: [`Fault::PermissionDenied`]; none that may has a
/// child of the name: [`Fault::NotFound`]; the way has [`PLACES_MAX`] places:
/// [`Fault::PathTooDeep`]; and the file of the new last place doesn't exist: [`Fault::PhaseError`].
pub fn find_arrival_on<'a, T: Tree, A: Allocator + Copy, B: Allocator + Copy>(
    forest: &'a Forest<T>,
    table: &MountTable<A>,
    way: &Way,
    name: &str,
    who: Option<Who<'_, B>>,
) -> Result<Arrival<'a, T::Alloc>, Fault>
    requires { Fits table.now way.now }
    ensures ok { IfOk result (λ arrival. step_of forest.now table.now
        (option_map who_view who.entry) (trail_of way.now) name.now ≡ Ok arrival.step) }
    ensures err { IfErr result (λ fault. step_of forest.now table.now
        (option_map who_view who.entry) (trail_of way.now) name.now ≡ Err fault) }
    ensures row { IfOk result (λ arrival. arrival.row
        ≡ row_position (here (stepped (trail_of way.now) arrival.step)) table.now) }
    ensures at { IfOk result (λ arrival. arrival.at
        ≡ file_ref (here (stepped (trail_of way.now) arrival.step)) table.now) }
    ensures file { IfOk result (λ arrival. node_of arrival.at forest.now ≡ Some arrival.file.now) }
    ensures places { IfOk result (λ arrival. length (stepped (trail_of way.now) arrival.step)
        ≤ places_max) }
{
    way.well_formed();
    find_arrival_by_rows(forest, table, way.places(), way.rows(), name, who)
}

/// Walks on from the last place along names, as [`crate::advance`]. This takes no memory. Where a
/// step is refused, the way ends before it.
pub fn advance_on<T: Tree, A: Allocator + Copy, B: Allocator + Copy>(
    forest: &Forest<T>,
    table: &MountTable<A>,
    way: &mut Way,
    names: &[&str],
    who: Option<Who<'_, B>>,
) -> Result<(), Fault>
    requires { Fits table.now way.old }
    ensures fits { Fits table.now way.new }
    ensures ok { OnOk result (walk forest.now table.now (option_map who_view who.entry)
        (trail_of way.old) (map (λ n. n.now) names.now) ≡ Ok (trail_of way.new)) }
    ensures err { IfErr result (λ fault. walk forest.now table.now (option_map who_view who.entry)
        (trail_of way.old) (map (λ n. n.now) names.now) ≡ Err fault) }
{
    for name in names {
        let arrival = find_arrival_on(forest, table, way, name, who)?;
        way.take(arrival.step, arrival.row);
    }
    Ok(())
}
