//! Where texts are in a list.

ghost use Rattle.std.specs.Prelude.{◌≡◌, [], OnErr, OnOk, is_some};
ghost use Rattle.p9_world.specs.Positions.{HasSame, Indexes, Places, position_at};

use p9_base::NoMemory;
use std::alloc::Allocator;
use std::collections::BTreeMap;

/// The positions of the texts of a list, by the texts in order. The list itself is kept elsewhere.
#[derive(Drop)]
pub(crate) struct Positions<A: Allocator + Copy> {
    alloc: A,
    by_text: BTreeMap<String<A>, usize, A>,
}

impl<A: Allocator + Copy> Positions<A> {
    /// Those of an empty list. This takes no memory.
    pub fn new(alloc: A) -> Positions<A>
        ensures { Indexes result [] }
    {
        Positions {
            alloc,
            by_text: BTreeMap::new(alloc),
        }
    }

    /// The position of a text, if it is in the list.
    pub fn of(&self, text: &str) -> Option<usize>
        ensures { result ≡ position_at self.now text.now }
    {
        self.by_text.get(text).copied()
    }

    /// Whether the text is in the list.
    pub fn has(&self, text: &str) -> bool
        ensures { result ≡ is_some (position_at self.now text.now) }
    {
        self.by_text.contains_key(text)
    }

    /// Gives a text a position. Where an allocation fails, all positions are as before.
    pub fn insert(&mut self, text: &str, position: usize) -> Result<(), NoMemory>
        ensures ok { OnOk result (Places text.now position self.old self.new) }
        ensures err { OnErr result (HasSame self.old self.new) }
    {
        let text = String::from_str(self.alloc, text)?;
        self.by_text.insert(text, position)?;
        Ok(())
    }
}
