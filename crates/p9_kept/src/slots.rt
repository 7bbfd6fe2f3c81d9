//! Names that were entered in directories, in a table that says of most others that they weren't.

ghost use Rattle.std.specs.Prelude.{◌≡◌, [], true, false, IfOk, replicate};
ghost use Rattle.p9_kept.specs.Entered.{KeepsEntered, may_have, slot_of};

use p9_base::{Name, NoMemory};
use std::alloc::Allocator;
use std::hash::{FoldHasher, Hasher};
use std::marker::Model;

/// Which names may be in directories. A name that was entered may be there, and so may others that have
/// its slot in a table. Where the table has no slots, any name may be there.
#[derive(Drop)]
pub(crate) struct Entered<A: Allocator> {
    slots: Vec<bool, A>,
}

impl<A: Allocator> Model for Entered<A> {
    ghost use Rattle.std.specs.Prelude.{Bool, List};

    ghost Value = { List Bool };

    ghost view = { λ e. e.slots.items };
}

impl<A: Allocator + Copy> Entered<A> {
    /// A table of so many slots in which no name was entered. The only error is a failed allocation.
    pub fn with_slots(alloc: A, count: usize) -> Result<Entered<A>, NoMemory>
        ensures { IfOk result (λ entered. entered ≡ replicate count false) }
    {
        Ok(Entered {
            slots: vec![in alloc; false; count]?,
        })
    }

    /// Whether the name may be in the directory.
    pub fn may_have(&self, dir: u64, name: &Name) -> bool
        ensures { result ≡ may_have self.now dir name.now }
    {
        match self.slots.get(slot_of(self.slots.len(), dir, name)) {
            Some(is_entered) => *is_entered,
            None => true,
        }
    }

    /// Enters the name in the directory.
    pub fn enter(&mut self, dir: u64, name: &Name)
        ensures there { may_have self.new dir name.now ≡ true }
        ensures kept { KeepsEntered self.old self.new }
    {
        let slot = slot_of(self.slots.len(), dir, name);
        if let Some(is_entered) = self.slots.get_mut(slot) {
            *is_entered = true;
        }
    }

    /// Gives up all slots: any name may be there from then on.
    pub fn give_up(&mut self)
        ensures { self.new ≡ [] }
    {
        self.slots.clear();
    }
}

// The slot of a name in a directory, of so many.
#[tactic(auto, unfolding(crate::specs::Entered::slot_of))]
fn slot_of(count: usize, dir: u64, name: &Name) -> usize
    ensures { result ≡ slot_of count dir name.now }
{
    if count == 0 {
        return 0;
    }
    let mut hasher = FoldHasher::default();
    hasher.write(&dir.to_le_bytes());
    hasher.write(name.as_str().as_bytes());
    (hasher.finish() % count as u64) as usize
}
