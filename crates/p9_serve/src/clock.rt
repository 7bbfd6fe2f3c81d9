//! A clock that rounds are timed by, and the machine's.

ghost use Rattle.std.specs.Prelude.{◌≡◌, ℕ, List, [], ◌∷◌, Option, None, IfOk, OnErr};
ghost use Rattle.std.specs.Duration.{as_nanos};
ghost use Rattle.std.specs.Io.KnownBytes.{Appends};
ghost use Rattle.p9_serve.specs.Run.{reading};

use std::rt::Clock;
use std::time::{Duration, SystemTime, UNIX_EPOCH};
use std::{io, thread};

/// A clock that is read once a round.
pub trait Timer {
    /// The readings that it has given, where they are known.
    ghost readings: { Self → Option (List ℕ) };

    /// Gives a reading, in whole seconds since 1970, modulo 2^32.
    fn read(&mut self) -> io::Result<u32>
        ensures ok { IfOk result (λ seconds. Appends (readings self.old) (readings self.new)
            (seconds ∷ [])) }
        ensures err { OnErr result (readings self.new ≡ readings self.old) };

    /// Rests so long, where that is any time.
    fn rest(&mut self, length: Duration)
        ensures { readings self.new ≡ readings self.old };
}

/// The machine's clock. Before 1970 it reads 0. Its readings are not known.
#[derive(Drop)]
pub(crate) struct MachineTimer<'a, R: Clock> {
    pub rt: &'a R,
}

impl<R: Clock> Timer for MachineTimer<'_, R> {
    ghost readings = { λ _. None };

    fn read(&mut self) -> io::Result<u32> {
        let clock = SystemTime::now(self.rt)?;
        Ok(clock.duration_since(UNIX_EPOCH).map_or(0, reading))
    }

    fn rest(&mut self, length: Duration) {
        if !length.is_zero() {
            thread::sleep(self.rt, length);
        }
    }
}

// What the clock reads so long after 1970 began.
fn reading(since: Duration) -> u32
    ensures { result ≡ reading (as_nanos since) }
{
    (since.as_secs() % 0x1_0000_0000) as u32
}
