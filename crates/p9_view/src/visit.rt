//! Tours of a name space for a user.

ghost use Rattle.std.specs.Prelude.{◌≡◌, ◌++◌, ◌+◌, ◌<◌, ◌∷◌, ◌^◌, IfOk, OnOk, length, reverse};
ghost use Rattle.std.specs.Option.{option_map};
ghost use Rattle.p9_space.specs.Rights.{who_view};
ghost use Rattle.p9_view.specs.Tour.{IsTourOf};
ghost use Rattle.p9_view.specs.Visit.{IsUnderway, entries_below};

use crate::met::{Met, nodes_of};
use crate::tour::{Entry, Tour};
use crate::way::{Access, Way, ways_from};
use p9_base::NoMemory;
use p9_space::{MountTable, Who};
use p9_tree::{Forest, Tree};
use std::alloc::Allocator;

/// A tour of a name space for a user: from the root place on, all places that he may come to, as he
/// may change the modes of directories that he rules. Without a user it goes through all directories.
///
/// From a place all children of all members that he passes lead on, in the order of the members and
/// in each of the nodes' numbers, and what is below each stands before the next. The access of an
/// entry says whether a walk by its path comes to it now. Where the place has the same members in the
/// same order as that of an earlier entry, nothing is below it, and the index of the earlier one is
/// given. So there is at most one entry for each entry of a directory and of a row of the mount table,
/// and one for the root. The only error is that an allocation fails.
pub fn tour_of<T: Tree>(
    alloc: T::Alloc,
    forest: &Forest<T>,
    table: &MountTable<T::Alloc>,
    who: Option<Who<'_, T::Alloc>>,
) -> Result<Tour<T::Alloc>, NoMemory>
    ensures { IfOk result (λ tour.
        IsTourOf forest.now table.now (option_map who_view who.entry) tour) }
{
    forest.well_formed();
    let mut underway = Underway {
        tour: Tour::new(alloc),
        met: Met::new(alloc),
        waiting: Vec::new(alloc),
    };
    underway.waiting.push(Entry::root())?;
    while let Some(entry) = underway.waiting.pop() {
        visit(forest, table, who, entry, &mut underway)?;
    }
    Ok(underway.tour)
}

// How far a tour is.
#[derive(Drop)]
struct Underway<A: Allocator + Copy> {
    // the entries that were visited
    tour: Tour<A>,
    // the members that were met, each with the index of its entry
    met: Met<A>,
    // the entries that are still to be visited, the next one last
    waiting: Vec<Entry, A>,
}

// Adds an entry. Unless its members were met before, what is below it waits.
fn visit<T: Tree>(
    forest: &Forest<T>,
    table: &MountTable<T::Alloc>,
    who: Option<Who<'_, T::Alloc>>,
    entry: Entry,
    underway: &mut Underway<T::Alloc>,
) -> Result<(), NoMemory>
    requires { IsUnderway forest.now table.now (option_map who_view who) underway.old.tour
        (entry ∷ reverse underway.old.waiting.items) underway.old.met }
    ensures underway { OnOk result (IsUnderway forest.now table.now
        (option_map who_view who.entry) underway.new.tour (reverse underway.new.waiting.items)
        underway.new.met) }
    ensures longer { OnOk result (length underway.new.tour ≡ length underway.old.tour + 1) }
    ensures small { length underway.old.tour < 2 ^ 64 }
{
    let alloc = underway.tour.allocator();
    let index = underway.tour.count();
    let members = table.members(entry.place);
    let nodes = nodes_of(alloc, members.as_slice())?;
    if let Some(same) = underway.met.get(nodes.as_slice()) {
        underway.tour.push(Entry {
            same: Some(same),
            ..entry
        })?;
        return Ok(());
    }
    let ways = ways_from(alloc, forest, table, who, entry.place)?;
    await_ways(index, entry.access, ways, &mut underway.waiting)?;
    underway.met.insert(nodes, index)?;
    underway.tour.push(entry)
}

// Lets the ways that lead on from an entry wait, the first before the others.
fn await_ways<A: Allocator + Copy>(
    parent: usize,
    above: Access,
    ways: Vec<Way, A>,
    waiting: &mut Vec<Entry, A>,
) -> Result<(), NoMemory>
    ensures { OnOk result (reverse waiting.new.items
        ≡ entries_below parent above ways.items ++ reverse waiting.old.items) }
{
    let mut ways = ways;
    while let Some(way) = ways.pop() {
        waiting.push(Entry::below(parent, way.below(above)))?;
    }
    Ok(())
}
