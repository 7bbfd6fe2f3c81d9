//! The entries of directories.

ghost use Rattle.std.specs.Prelude.{◌≡◌, false, true, IfNone, IfSome, None, OnErr, OnOk, Some};
ghost use Rattle.p9_index.specs.Entries.{HasNone, HasSame, IsLeast, IsNoneAbove, Lists};
ghost use Rattle.p9_index.specs.Entries.{ListsSame, Names, child_at, children_from, is_listed};
ghost use Rattle.p9_index.specs.Entries.{number_at};

use crate::names::Numbers;
use p9_base::NoMemory;
use p9_tree::Entry;
use std::alloc::Allocator;
use std::collections::BTreeSet;
use std::ops::Bound;

/// A node of a directory, by its number. Children are in the order of their directories, and in a
/// directory in that of their numbers.
#[derive(Clone, Copy, PartialEq, Eq, PartialOrd, Ord)]
pub(crate) struct Child {
    pub dir: u64,
    pub number: u64,
}

/// The entries of all directories of a tree, by the numbers of their nodes and by their names.
#[derive(Drop)]
pub(crate) struct Entries<A: Allocator + Copy> {
    children: BTreeSet<Child, A>,
    numbers: Numbers<A>,
}

impl<A: Allocator + Copy> Entries<A> {
    /// No entries. This takes no memory.
    pub fn new(alloc: A) -> Entries<A>
        ensures { HasNone result }
    {
        Entries {
            children: BTreeSet::new(alloc),
            numbers: Numbers::new(alloc),
        }
    }

    /// The number of the node of this entry.
    pub fn number_at(&self, entry: &Entry) -> Option<u64>
        ensures { result ≡ number_at self.now entry.now }
    {
        self.numbers.get(entry)
    }

    /// The least number in the directory, above the floor if there is one.
    pub fn number_after(&self, dir: u64, floor: Option<u64>) -> Option<u64>
        ensures some { IfSome result (λ number. IsLeast dir floor number self.now) }
        ensures none { IfNone result (IsNoneAbove dir floor self.now) }
    {
        let start = children_from(dir, floor);
        let first = self.children.range((start, Bound::Unbounded)).next()?;
        if first.dir == dir {
            Some(first.number)
        } else {
            None
        }
    }

    /// Enters a node under its entry. Where an allocation fails, all is as before.
    pub fn enter(&mut self, entry: Entry, number: u64) -> Result<(), NoMemory>
        requires unnamed { number_at self.old entry ≡ None }
        requires unlisted { is_listed self.old (child_at entry.parent number) ≡ false }
        ensures listed { OnOk result (Lists true (child_at entry.parent number) self.old self.new) }
        ensures named { OnOk result (Names (Some number) entry self.old self.new) }
        ensures err { OnErr result (HasSame self.old self.new) }
    {
        self.numbers.insert(entry, number)?;
        let child = Child {
            dir: entry.parent,
            number,
        };
        if self.children.insert(child).is_err() {
            self.numbers.remove(&entry);
            return Err(NoMemory);
        }
        Ok(())
    }

    /// Takes out the entry of a node. This takes no memory.
    pub fn take_out(&mut self, entry: &Entry, number: u64)
        ensures listed { Lists false (child_at entry.now.parent number) self.old self.new }
        ensures named { Names None entry.now self.old self.new }
    {
        let child = Child {
            dir: entry.parent,
            number,
        };
        let _ = self.children.remove(&child);
        self.unname(entry);
    }

    /// Names a node by this entry. Where an allocation fails, all is as before.
    pub fn name(&mut self, entry: Entry, number: u64) -> Result<(), NoMemory>
        ensures listed { OnOk result (ListsSame self.old self.new) }
        ensures named { OnOk result (Names (Some number) entry self.old self.new) }
        ensures err { OnErr result (HasSame self.old self.new) }
    {
        self.numbers.insert(entry, number)
    }

    /// Names no node by this entry. This takes no memory.
    pub fn unname(&mut self, entry: &Entry)
        ensures listed { ListsSame self.old self.new }
        ensures named { Names None entry.now self.old self.new }
    {
        self.numbers.remove(entry);
    }
}

// Where the children of the directory above the floor begin among all.
fn children_from(dir: u64, floor: Option<u64>) -> Bound<Child>
    ensures { result ≡ children_from dir floor }
{
    match floor {
        Some(number) => Bound::Excluded(Child { dir, number }),
        None => Bound::Included(Child { dir, number: 0 }),
    }
}
