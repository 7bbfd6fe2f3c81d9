//! Tours of the name space.

ghost use Rattle.std.specs.Prelude.{◌≡◌, ◌++◌, ◌∷◌, ◌<◌, [], IfOk, OnOk, Some, length, map, reverse};
ghost use Rattle.std.specs.Prelude.{slice_get};
ghost use Rattle.std.specs.Option.{option_and_then, option_map};
ghost use Rattle.std.specs.String.{string_bytes};
ghost use Rattle.p9_view.specs.Tour.{CanFollow, IsPathTo, IsTextOfSame, IsTextTo, IsTour, entry_below};
ghost use Rattle.p9_view.specs.Tour.{origin_at, root_entry};
ghost use Rattle.p9_view.specs.declared.tour.Entry.{Entry};

use crate::way::{Access, Way};
use p9_base::{Name, NoMemory, NodeRef};
use p9_prepared::rooted_path;
use p9_space::ROOT_PLACE;
use std::alloc::Allocator;
use std::marker::Model;

/// Where an entry of a tour is: below the entry of this index, under this name.
#[derive(Clone, Copy)]
pub struct Origin {
    pub parent: usize,
    pub name: Name,
}

/// A place that a tour comes to.
#[derive(Clone, Copy)]
pub struct Entry {
    /// Where it is; nowhere for the root place.
    pub origin: Option<Origin>,
    /// The place: a key of the mount table.
    pub place: NodeRef,
    /// Whether a walk by its path comes to it.
    pub access: Access,
    /// The index of the earlier entry that has the same members in the same order, if there is one.
    /// Then what is below that is not repeated below this.
    pub same: Option<usize>,
}

/// A tour of a name space, from its root place on, each place before what is below it. Contracts see
/// it as the list of its entries.
#[derive(Drop)]
pub struct Tour<A: Allocator> {
    entries: Vec<Entry, A>,
}

impl<A: Allocator> Model for Tour<A> {
    ghost use Rattle.std.specs.Prelude.{List};
    ghost use Rattle.p9_view.specs.declared.tour.Entry.{Entry};
    ghost use Rattle.p9_view.specs.Tour.{IsTour};

    ghost Value = { List Entry };

    ghost view = { λ t. t.entries.items };

    ghost invariant = { λ t. IsTour t.entries.items };
}

impl Entry {
    /// The entry of the root place.
    pub(crate) fn root() -> Entry
        ensures { result ≡ root_entry }
    {
        Entry {
            origin: None,
            place: ROOT_PLACE,
            access: Access::Now,
            same: None,
        }
    }

    /// The entry of a way that leads on from the entry of this index.
    pub(crate) fn below(parent: usize, way: Way) -> Entry
        ensures { result ≡ entry_below parent way }
    {
        Entry {
            origin: Some(Origin {
                parent,
                name: way.name,
            }),
            place: way.place,
            access: way.access,
            same: None,
        }
    }
}

impl<A: Allocator + Copy> Tour<A> {
    /// A tour without entries. This takes no memory.
    pub(crate) fn new(alloc: A) -> Tour<A>
        ensures { result ≡ [] }
    {
        Tour {
            entries: Vec::new(alloc),
        }
    }

    /// The entries, in the order in which the tour comes to them.
    pub fn entries(&self) -> &[Entry]
        ensures { result.now ≡ self.now }
    {
        self.entries.as_slice()
    }

    /// What is kept of each tour: the entry without an origin is the first, and each other is below an
    /// earlier one. This does nothing when it runs; it is for a caller that has to know so.
    pub fn well_formed(&self)
        ensures { IsTour self.now }
    {
        let _entries = &self.entries;
    }

    /// The names from the first entry to the entry of this index: its path. The only error is that an
    /// allocation fails.
    pub fn names_to(&self, index: usize) -> Result<Vec<&str, A>, NoMemory>
        requires { index < length self.now }
        ensures { IfOk result (λ names.
            IsPathTo self.now index (map (λ n. n.now) names.items)) }
    {
        let mut names = self.names_from(index)?;
        names.reverse();
        Ok(names)
    }

    // The names from an entry's own up to that below the first entry.
    fn names_from(&self, index: usize) -> Result<Vec<&str, A>, NoMemory>
        requires { index < length self.now }
        ensures { IfOk result (λ names.
            IsPathTo self.now index (reverse (map (λ n. n.now) names.items))) }
    {
        self.well_formed();
        let mut names = Vec::new(self.allocator());
        let mut here = index;
        while let Some((parent, name)) = self.origin(here) {
            names.push(name)?;
            here = parent;
        }
        Ok(names)
    }

    // Below which entry an entry is, and under which name.
    fn origin(&self, index: usize) -> Option<(usize, &str)>
        ensures { option_map (λ o. (o.0, o.1.now)) result ≡ origin_at self.now index }
    {
        let origin = self.entries.get(index)?.origin.as_ref()?;
        Some((origin.parent, origin.name.as_str()))
    }

    /// The path to the entry of this index: a slash before each name, and a slash alone for the first
    /// entry. The only error is that an allocation fails.
    pub fn path_to(&self, index: usize) -> Result<String<A>, NoMemory>
        requires { index < length self.now }
        ensures { IfOk result (λ path. IsTextTo self.now index (string_bytes path)) }
    {
        let names = self.names_to(index)?;
        Ok(rooted_path(self.allocator(), names.as_slice())?)
    }

    /// The path to the entry that the entry of this index has the same members as, if there is one.
    /// The only error is that an allocation fails.
    pub fn path_to_same(&self, index: usize) -> Result<Option<String<A>>, NoMemory>
        ensures { IfOk result (λ path. (e : Entry) → slice_get self.now index ≡ Some e
            → IsTextOfSame self.now e.same (option_map string_bytes path)) }
    {
        self.well_formed();
        match self.same(index) {
            Some(same) => Ok(Some(self.path_to(same)?)),
            None => Ok(None),
        }
    }

    // The index of the entry that the entry of an index has the same members as.
    fn same(&self, index: usize) -> Option<usize>
        ensures { result ≡ option_and_then (λ e. e.same) (slice_get self.now index) }
    {
        self.entries.get(index)?.same
    }

    /// The allocator that the entries are kept in.
    pub(crate) fn allocator(&self) -> A {
        *self.entries.allocator()
    }

    /// How many entries there are.
    pub(crate) fn count(&self) -> usize
        ensures { result ≡ length self.now }
    {
        self.entries.len()
    }

    /// Adds an entry, which is the first or below another.
    pub(crate) fn push(&mut self, entry: Entry) -> Result<(), NoMemory>
        requires { CanFollow (length self.old) entry }
        ensures { OnOk result (self.new ≡ self.old ++ entry ∷ []) }
    {
        self.entries.push(entry)?;
        Ok(())
    }
}
