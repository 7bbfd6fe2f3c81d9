//! Bytes that were read and are not given yet.

ghost use Rattle.std.specs.Prelude.{◌≡◌, ◌<◌, ◌≤◌, ◌+◌, ◌-◌, ◌++◌, [], IfOk, OnErr, drop, length};
ghost use Rattle.std.specs.Prelude.{nat_lt, take};
ghost use Rattle.std.specs.Io.KnownBytes.{Consumes, Keeps};
ghost use Rattle.p9_conn.specs.Device.{HasRead};
ghost use Rattle.p9_restricted.specs.Front.{longest};
ghost use Rattle.p9_restricted.specs.Masked.{Passes};
ghost use Rattle.p9_restricted.specs.Stream.{Gives, nothing_held};

use crate::passing::Passing;
use p9_conn::Stream;
use std::alloc::Allocator;
use std::io;
use std::marker::Model;

// As many bytes say what begins a frame, whatever it is.
const LONGEST: usize = 80;

/// Bytes that were read and are not given yet: those that are ready, and behind them those of which
/// too few came to say what they begin.
#[derive(Drop)]
pub(crate) struct Held {
    bytes: [u8; LONGEST],
    // Where the ready bytes begin, where they end, and where the others end.
    given: usize,
    passed: usize,
    end: usize,
}

impl Model for Held {
    ghost use Rattle.std.specs.Prelude.{◌≤◌, ◌-◌, drop, take};
    ghost use Rattle.p9_restricted.specs.Front.{longest};
    ghost use Rattle.p9_restricted.specs.Stream.{Holding};

    ghost Value = { Holding };

    ghost view = { λ h. record {
      ready = take (h.passed - h.given) (drop h.given h.bytes);
      undecided = take (h.end - h.passed) (drop h.passed h.bytes);
    } };

    ghost invariant = { λ h. (h.given ≤ h.passed) × (h.passed ≤ h.end) × (h.end ≤ longest) };
}

impl Held {
    /// No bytes.
    pub fn new() -> Held
        ensures { result ≡ nothing_held }
    {
        Held {
            bytes: [0; LONGEST],
            given: 0,
            passed: 0,
            end: 0,
        }
    }

    /// Whether any bytes are ready.
    pub fn is_ready(&self) -> bool
        ensures { result ≡ nat_lt 0 (length self.now.ready) }
    {
        self.given < self.passed
    }

    /// Whether there are bytes of which too few came.
    pub fn is_undecided(&self) -> bool
        ensures { result ≡ nat_lt 0 (length self.now.undecided) }
    {
        self.passed < self.end
    }

    /// Gives ready bytes, as many as there is room for, and returns how many.
    pub fn give(&mut self, room: &mut [u8]) -> usize
        ensures { Gives self.old self.new room.new result }
    {
        let count = (self.passed - self.given).min(room.len());
        let next = self.given + count;
        room[..count].copy_from_slice(&self.bytes[self.given..next]);
        self.given = next;
        count
    }

    /// Holds bytes of which too few came, and no others.
    pub fn hold(&mut self, bytes: &[u8])
        requires { length bytes.now < longest }
        ensures { self.new ≡ record { ready = []; undecided = bytes.now } }
    {
        let len = bytes.len();
        self.bytes[..len].copy_from_slice(bytes);
        self.given = 0;
        self.passed = 0;
        self.end = len;
    }

    /// Reads once behind the bytes of which too few came, where none are ready, and returns how many
    /// came. An error of the stream changes no byte.
    pub fn read_on<S: Stream>(&mut self, stream: &mut S) -> io::Result<usize>
        requires none_ready { self.old.ready ≡ [] }
        requires few { length self.old.undecided < longest }
        ensures came { HasRead (S.remaining stream.old) (S.remaining stream.new) result
            self.old.undecided self.new.undecided }
        ensures ready { self.new.ready ≡ [] }
        ensures written { Keeps (S.contents stream.old) (S.contents stream.new) }
    {
        let filled = self.end - self.passed;
        move_to_front(&mut self.bytes, self.passed, self.end);
        self.given = 0;
        self.passed = 0;
        self.end = filled;
        let count = read_behind(stream, &mut self.bytes, filled)?;
        self.end = filled + count;
        Ok(count)
    }

    /// Passes the bytes on of which too few had come, where none are ready, as far as it is known now
    /// what they are: these are ready then.
    pub fn pass<A: Allocator>(&mut self, passing: &mut Passing<A>)
        requires { self.old.ready ≡ [] }
        ensures passed { Passes passing.old self.old.undecided passing.new
            (self.new.ready ++ self.new.undecided) (length self.new.ready) }
        ensures few { length self.new.undecided < longest }
    {
        self.given = self.passed;
        self.passed += passing.pass(&mut self.bytes[self.given..self.end]);
    }
}

// Moves some bytes to the front.
fn move_to_front(bytes: &mut [u8], from: usize, to: usize)
    requires ordered { from ≤ to }
    requires within { to ≤ length bytes.old }
    ensures { take (to - from) bytes.new ≡ take (to - from) (drop from bytes.old) }
{
    bytes.copy_within(from..to, 0);
}

// Reads once, behind the first bytes.
fn read_behind<S: Stream>(stream: &mut S, bytes: &mut [u8], filled: usize) -> io::Result<usize>
    requires { filled < length bytes.old }
    ensures count { IfOk result (λ count. filled + count ≤ length bytes.old) }
    ensures kept { take filled bytes.new ≡ take filled bytes.old }
    ensures read { IfOk result (λ count. Consumes (S.remaining stream.old) (S.remaining stream.new)
        (drop filled (take (filled + count) bytes.new))) }
    ensures err { OnErr result (Keeps (S.remaining stream.old) (S.remaining stream.new)) }
    ensures written { Keeps (S.contents stream.old) (S.contents stream.new) }
{
    stream.receive(&mut bytes[filled..])
}
