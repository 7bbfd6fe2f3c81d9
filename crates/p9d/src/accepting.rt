//! When a server accepts, and how long it rests.

use p9_serve::{Pace, Round};
use std::time::Duration;

// After so many accepts in a row that found nobody there is at most one in a millisecond.
const MISSES: u64 = 3;

/// When a server accepts: as [`Pace`] says, but after some accepts in a row that found nobody at most
/// once in a millisecond. Such an accept takes longer than many rounds, at each address.
#[derive(Drop)]
pub(crate) struct Accepting {
    pace: Pace,
    // The millisecond of its second in which the clock was read last, and that of the last accept.
    now: u32,
    last: u32,
    // How many accepts in a row found nobody, since a client left.
    missed: u64,
}

impl Accepting {
    /// That of a server before its first round.
    pub fn new() -> Accepting {
        Accepting {
            pace: Pace::new(),
            now: 0,
            last: 0,
            missed: 0,
        }
    }

    /// How long to rest before the next round.
    pub fn rest(&self) -> Duration {
        self.pace.rest()
    }

    /// The clock was read, in this millisecond of a second.
    pub fn read_clock(&mut self, millisecond: u32) {
        self.now = millisecond;
    }

    /// Whether the next round accepts.
    pub fn is_due(&self) -> bool {
        self.pace.is_due() && (self.missed < MISSES || self.now != self.last)
    }

    /// Counts one round more, which came to this, and accepted or not.
    pub fn count(&mut self, has_tried: bool, round: Round) {
        if has_tried {
            self.last = self.now;
            self.missed = self.missed.saturating_add(1);
        }
        if round.accepted > 0 || round.closed > 0 {
            self.missed = 0;
        }
        self.pace.count(round);
    }
}
