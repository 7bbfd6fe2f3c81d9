//! When a server accepts, and how long it rests between rounds.

ghost use Rattle.std.specs.Prelude.{◌≡◌, ◌≤◌, ◌*◌};
ghost use Rattle.std.specs.Duration.{as_nanos};
ghost use Rattle.p9_serve.specs.Pace.{has_changed, is_due, is_quiet, longest_wait, most_quiet};
ghost use Rattle.p9_serve.specs.Pace.{new_pacing, pacing_after, rest_of, wait_after};

use crate::server::Round;
use std::marker::Model;
use std::time::Duration;

// How many rounds pass at least, and at most, between an accept that finds nobody and the next one.
const SHORTEST_WAIT: u64 = 15;

const LONGEST_WAIT: u64 = 63;

// After this many quiet rounds a server rests before each further one.
const REST_FROM: u64 = 5_000;

// After this many quiet rounds a server rests longest. No more are counted.
const MOST_QUIET: u64 = 5_007;

/// What a server's rounds so far say of the next one: whether it accepts, and how long to rest
/// before it. A round is quiet where nothing was taken in, moved or closed.
///
/// A round accepts if it is the first, or if the one before it took in or closed a client. After an
/// accept that finds nobody 15 rounds pass until the next, then 31, and then 63 each time. A round
/// accepts also after each rest. There is a rest after 5,000 quiet rounds and after each further
/// one: 50 microseconds at first, then each time twice as long, up to 4,000. A round that is not
/// quiet ends the rests.
#[derive(Drop)]
pub struct Pace {
    // The quiet rounds in a row that were the last ones, up to `MOST_QUIET`.
    quiet: u64,
    // The rounds that may still pass before one accepts, whatever comes.
    left: u64,
    // What was left just after the last accept.
    wait: u64,
}

impl Model for Pace {
    ghost use Rattle.std.specs.Prelude.{◌≤◌};
    ghost use Rattle.p9_serve.specs.Pace.{Pacing, longest_wait, most_quiet};

    ghost Value = { Pacing };

    ghost view = { λ p. record { quiet = p.quiet; left = p.left; wait = p.wait } };

    ghost invariant = { λ p. (p.quiet ≤ most_quiet) × (p.wait ≤ longest_wait) };
}

impl Pace {
    /// The pace of a server before its first round.
    pub fn new() -> Pace
        ensures { result ≡ new_pacing }
    {
        Pace {
            quiet: 0,
            left: 0,
            wait: 0,
        }
    }

    /// Whether the next round accepts.
    pub fn is_due(&self) -> bool
        ensures { result ≡ is_due self.now }
    {
        self.left == 0 || self.quiet >= REST_FROM
    }

    /// How long to rest before the next round.
    pub fn rest(&self) -> Duration
        ensures { as_nanos result ≡ rest_of self.now.quiet * 1_000 }
    {
        Duration::from_micros(micros(self.quiet))
    }

    /// Counts one round more, which came to this.
    pub fn count(&mut self, round: Round)
        ensures { self.new ≡ pacing_after self.old round }
    {
        let was_due = self.is_due();
        self.wait = self.wait_after(round, was_due);
        self.left = if has_changed(round) || was_due {
            self.wait
        } else {
            self.left.saturating_sub(1)
        };
        self.quiet = if is_quiet(round) {
            (self.quiet + 1).min(MOST_QUIET)
        } else {
            0
        };
    }

    // How many rounds are left just after the last accept, once this round is over.
    fn wait_after(&self, round: Round, was_due: bool) -> u64
        ensures { result ≡ wait_after was_due self.now.wait round }
    {
        if has_changed(round) {
            0
        } else if was_due {
            (2 * self.wait + 1).max(SHORTEST_WAIT).min(LONGEST_WAIT)
        } else {
            self.wait
        }
    }
}

// Whether a client was taken in or closed.
fn has_changed(round: Round) -> bool
    ensures { result ≡ has_changed round }
{
    round.accepted > 0 || round.closed > 0
}

// Whether nothing was taken in, moved or closed.
fn is_quiet(round: Round) -> bool
    ensures { result ≡ is_quiet round }
{
    round.accepted == 0 && round.moved == 0 && round.closed == 0
}

// The microseconds of the rest after so many quiet rounds.
fn micros(quiet: u64) -> u64
    requires { quiet ≤ most_quiet }
    ensures { result ≡ rest_of quiet }
{
    match quiet {
        0..5_000 => 0,
        5_000 => 50,
        5_001 => 100,
        5_002 => 200,
        5_003 => 400,
        5_004 => 800,
        5_005 => 1_600,
        5_006 => 3_200,
        _ => 4_000,
    }
}
