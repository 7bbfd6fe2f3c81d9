//! The bytes of a connection that wait: those that it has read, and those that it is to write.

ghost use Rattle.std.specs.Prelude.{◌≡◌, ◌<◌, ◌≤◌, ◌+◌, ◌-◌, [], IfOk, IsTrue, OnErr, drop, length};
ghost use Rattle.std.specs.Prelude.{nat_eq, take, vec_capacity, vec_len};
ghost use Rattle.std.specs.Io.KnownBytes.{Consumes, Keeps};
ghost use Rattle.p9_conn.specs.Conn.{FrameIsAnswered};
ghost use Rattle.p9_conn.specs.Device.{HasRead, HasWritten};
ghost use Rattle.p9_wire.specs.Frame.{first_frame, is_frame, msize_max};

use crate::room::{lengthen, with_room};
use p9_base::NoMemory;
use p9_guard::Guard;
use p9_tree::Tree;
use p9_wire::{Frame, MSIZE_MAX, Stream, frame_of};
use std::alloc::Allocator;
use std::io;
use std::marker::Model;

// How long the buffer is when it is first read into.
const FIRST: usize = 16_384;

/// Bytes that wait in a buffer, at most as many as the greatest frame has: those that were read and
/// are in no frame yet, or what is left to write of a reply.
///
/// Bytes come in after the others and are taken out at the front. They are not moved when others
/// are taken out before them, but before the next read at the latest.
#[derive(Drop)]
pub(crate) struct Window<A: Allocator + Copy> {
    // As long as it was ever filled; its room is taken from the beginning on.
    bytes: Vec<u8, A>,
    // Where the bytes that wait begin and end.
    start: usize,
    end: usize,
}

impl<A: Allocator + Copy> Model for Window<A> {
    ghost use Rattle.std.specs.Prelude.{◌≤◌, ◌-◌, List, drop, length, take};
    ghost use Rattle.std.specs.Prelude.{vec_capacity, vec_len, ℕ};
    ghost use Rattle.p9_wire.specs.Frame.{msize_max};

    ghost Value = { List ℕ };

    ghost view = { λ b. take (b.end - b.start) (drop b.start b.bytes.items) };

    ghost invariant = { λ b. (b.start ≤ b.end) × (b.end ≤ vec_len b.bytes)
        × (vec_len b.bytes ≤ msize_max) × (msize_max ≤ vec_capacity b.bytes) };
}

impl<A: Allocator + Copy> Window<A> {
    /// No bytes, with room for the greatest frame.
    pub fn new(alloc: A) -> Result<Window<A>, NoMemory>
        ensures { IfOk result (λ window. window ≡ []) }
    {
        Ok(Window {
            bytes: with_room(alloc)?,
            start: 0,
            end: 0,
        })
    }

    /// The bytes.
    pub fn bytes(&self) -> &[u8]
        ensures { result.now ≡ self.now }
    {
        &self.bytes[self.start..self.end]
    }

    /// Whether there are none.
    pub fn is_empty(&self) -> bool
        ensures { result ≡ nat_eq (length self.now) 0 }
    {
        self.start == self.end
    }

    /// What is at the front of the bytes.
    pub fn front(&self) -> Frame
        ensures { result ≡ first_frame self.now }
    {
        frame_of(self.bytes())
    }

    /// Takes bytes out at the front.
    pub fn skip(&mut self, count: usize)
        requires { count ≤ length self.old }
        ensures { self.new ≡ drop count self.old }
    {
        self.start += count;
    }

    /// Reads once, after the bytes, and returns how many came. An error of the stream changes no
    /// byte.
    pub fn receive<S: Stream>(&mut self, stream: &mut S) -> io::Result<usize>
        requires { length self.old < msize_max }
        ensures came { HasRead (S.remaining stream.old) (S.remaining stream.new) result self.old
            self.new }
        ensures written { Keeps (S.contents stream.old) (S.contents stream.new) }
    {
        let filled = self.end - self.start;
        move_to_front(&mut self.bytes, self.start, self.end);
        self.start = 0;
        self.end = filled;
        make_room(&mut self.bytes, filled);
        let count = read_after(stream, &mut self.bytes, filled)?;
        self.end = filled + count;
        Ok(count)
    }

    /// Writes the bytes once, takes out those that went out, and returns how many these are. An error
    /// of the stream changes no byte. `more` says that other bytes will be written after these.
    pub fn send<S: Stream>(&mut self, stream: &mut S, more: bool) -> io::Result<usize>
        ensures went { HasWritten (S.contents stream.old) (S.contents stream.new) result self.old
            self.new }
        ensures left { Keeps (S.remaining stream.old) (S.remaining stream.new) }
    {
        let count = stream.send(self.bytes(), more)?;
        self.skip(count);
        Ok(count)
    }

    /// Has a frame answered by the guard. The bytes are then its reply, where the guard wrote it: none
    /// for a session that is not open.
    pub fn answer<T: Tree>(&mut self, guard: &mut Guard<T>, session: u32, frame: &[u8], clock: u32)
        requires { IsTrue (is_frame frame.now) }
        ensures { FrameIsAnswered session frame.now clock guard.old guard.new self.new }
    {
        let Some(room) = guard.reply_max(session) else {
            self.start = 0;
            self.end = 0;
            return;
        };
        lengthen(&mut self.bytes, room);
        self.start = 0;
        self.end = guard.answer(session, frame, clock, self.bytes.as_mut_slice());
    }
}

// Moves some bytes of a buffer to its front.
fn move_to_front<A: Allocator>(bytes: &mut Vec<u8, A>, from: usize, to: usize)
    requires ordered { from ≤ to }
    requires within { to ≤ vec_len bytes.old }
    ensures len { vec_len bytes.new ≡ vec_len bytes.old }
    ensures room { vec_capacity bytes.new ≡ vec_capacity bytes.old }
    ensures front { take (to - from) bytes.new.items
        ≡ take (to - from) (drop from bytes.old.items) }
{
    if from > 0 {
        bytes.copy_within(from..to, 0);
    }
}

// Lengthens a buffer that is full: it becomes twice as long, at first `FIRST` bytes, and at most as
// long as the greatest frame.
fn make_room<A: Allocator>(bytes: &mut Vec<u8, A>, filled: usize)
    requires within { filled ≤ vec_len bytes.old }
    requires less { filled < msize_max }
    requires small { vec_len bytes.old ≤ msize_max }
    requires room { msize_max ≤ vec_capacity bytes.old }
    ensures more { filled < vec_len bytes.new }
    ensures small { vec_len bytes.new ≤ msize_max }
    ensures room { msize_max ≤ vec_capacity bytes.new }
    ensures kept { take filled bytes.new.items ≡ take filled bytes.old.items }
{
    if filled == bytes.len() {
        lengthen(bytes, (filled * 2).clamp(FIRST, MSIZE_MAX as usize));
    }
}

// Reads once, after the first bytes of a buffer.
fn read_after<S: Stream, A: Allocator>(
    stream: &mut S,
    bytes: &mut Vec<u8, A>,
    filled: usize,
) -> io::Result<usize>
    requires { filled < vec_len bytes.old }
    ensures len { vec_len bytes.new ≡ vec_len bytes.old }
    ensures room { vec_capacity bytes.new ≡ vec_capacity bytes.old }
    ensures count { IfOk result (λ count. filled + count ≤ vec_len bytes.old) }
    ensures kept { take filled bytes.new.items ≡ take filled bytes.old.items }
    ensures read { IfOk result (λ count. Consumes (S.remaining stream.old)
        (S.remaining stream.new) (drop filled (take (filled + count) bytes.new.items))) }
    ensures err { OnErr result (Keeps (S.remaining stream.old) (S.remaining stream.new)) }
    ensures written { Keeps (S.contents stream.old) (S.contents stream.new) }
{
    stream.receive(&mut bytes[filled..])
}
