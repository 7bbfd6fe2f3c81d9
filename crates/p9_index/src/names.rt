//! The numbers of nodes by their entries.

ghost use Rattle.std.specs.Prelude.{◌≡◌, false, true, IfNone, IfSome, None, OnErr, OnOk, Some};
ghost use Rattle.p9_tree.specs.declared.node.Entry.{Entry};
ghost use Rattle.p9_index.specs.Entries.{HasSameNumbers, Renumbers, StandsFor, is_short};
ghost use Rattle.p9_index.specs.Entries.{number_of};

use arrayvec::ArrayString;
use p9_base::NoMemory;
use p9_tree::Entry;
use std::alloc::Allocator;
use std::collections::BTreeMap;

// The most bytes of a short name.
const SHORT_MAX: usize = 24;

/// The entry of a short name. The order is that of [`Entry`].
#[derive(Clone, Copy, PartialEq, Eq, PartialOrd, Ord)]
pub(crate) struct ShortEntry {
    parent: u64,
    name: ArrayString<SHORT_MAX>,
}

/// The numbers of nodes by their entries. The entries of short names, which most names are, have a
/// map of their own, since an [`Entry`] takes the room of the longest name.
#[derive(Drop)]
pub(crate) struct Numbers<A: Allocator + Copy> {
    pub short: BTreeMap<ShortEntry, u64, A>,
    pub long: BTreeMap<Entry, u64, A>,
}

impl<A: Allocator + Copy> Numbers<A> {
    /// No numbers. This takes no memory.
    pub fn new(alloc: A) -> Numbers<A>
        ensures { (e : Entry) → number_of result e ≡ None }
    {
        Numbers {
            short: BTreeMap::new(alloc),
            long: BTreeMap::new(alloc),
        }
    }

    /// The number of the node of this entry.
    pub fn get(&self, entry: &Entry) -> Option<u64>
        ensures { result ≡ number_of self.now entry.now }
    {
        match short_entry(entry) {
            Some(short) => self.short.get(&short).copied(),
            None => self.long.get(entry).copied(),
        }
    }

    /// Gives the entry this number. Where an allocation fails, all is as before.
    pub fn insert(&mut self, entry: Entry, number: u64) -> Result<(), NoMemory>
        ensures ok { OnOk result (Renumbers (Some number) entry self.old self.new) }
        ensures err { OnErr result (HasSameNumbers self.old self.new) }
    {
        match short_entry(&entry) {
            Some(short) => {
                self.short.insert(short, number)?;
            }
            None => {
                self.long.insert(entry, number)?;
            }
        }
        Ok(())
    }

    /// Takes the number of the entry away, if it has one. This takes no memory.
    pub fn remove(&mut self, entry: &Entry)
        ensures { Renumbers None entry.now self.old self.new }
    {
        match short_entry(entry) {
            Some(short) => {
                let _ = self.short.remove(&short);
            }
            None => {
                let _ = self.long.remove(entry);
            }
        }
    }
}

// The entry, if its name is short.
fn short_entry(entry: &Entry) -> Option<ShortEntry>
    ensures some { IfSome result (λ short. StandsFor short entry.now) }
    ensures short { IfSome result (λ short. is_short entry.now ≡ true) }
    ensures none { IfNone result (is_short entry.now ≡ false) }
{
    Some(ShortEntry {
        parent: entry.parent,
        name: ArrayString::from(entry.name.as_str()).ok()?,
    })
}
