//! A session: what one client and the exporter have agreed on, and the client's fids.

ghost use Rattle.std.specs.Prelude.{◌≡◌};
ghost use Rattle.p9_step.specs.Laws.{reply_max};
ghost use Rattle.p9_step.specs.State.{iounit_of};
ghost use Rattle.p9_walks.specs.Held.{fresh_held};

use p9_base::FAULT_TEXT_MAX;
use p9_fids::FidTable;
use p9_wire::{HEADER, IOHDRSZ};
use std::alloc::Allocator;
use std::marker::Model;

// The most bytes of a refusal: its header, the length of its text, and the longest text of a fault.
const REFUSAL_MAX: usize = HEADER + 2 + FAULT_TEXT_MAX;

/// A session, as version(5). It is seen as that, with the rows of the fids' places beside it.
#[derive(Drop)]
pub struct Session<A: Allocator + Copy> {
    /// The greatest frame, once the version is set.
    pub msize: Option<u32>,
    /// The client's fids.
    pub fids: FidTable<A>,
}

impl<A: Allocator + Copy> Model for Session<A> {
    ghost use Rattle.p9_walks.specs.Held.{HeldSession};

    ghost Value = { HeldSession };

    ghost view = { λ s. record {
      session = record { msize = s.msize; fids = s.fids.fids };
      rows = s.fids.rows;
    } };
}

impl<A: Allocator + Copy> Session<A> {
    /// A session whose version isn't set. This takes no memory.
    pub fn new(alloc: A) -> Session<A>
        ensures { result ≡ fresh_held }
    {
        Session {
            msize: None,
            fids: FidTable::new(alloc),
        }
    }

    /// How many bytes a read or a write of the session may carry: its iounit, as open(5).
    pub fn iounit(&self) -> u32
        ensures { result ≡ iounit_of self.now.session }
    {
        match self.msize {
            Some(msize) => msize.saturating_sub(IOHDRSZ),
            None => 0,
        }
    }

    /// The most bytes that a reply to the session has: its msize, and 43 before a version.
    pub fn reply_max(&self) -> usize
        ensures { result ≡ reply_max self.now.session }
    {
        match self.msize {
            Some(msize) => msize as usize,
            None => REFUSAL_MAX,
        }
    }
}
