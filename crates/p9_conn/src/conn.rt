//! One connection.

ghost use Rattle.std.specs.Prelude.{◌≡◌, ◌<◌, [], IfErr, IfOk, false, length};
ghost use Rattle.p9_conn.specs.Conn.{ComesTo, HasTurned, IsEnded, new_connection};
ghost use Rattle.p9_conn.specs.Turn.{Answering, Ending, Receiving, Sending, phase_of};
ghost use Rattle.p9_wire.specs.Frame.{first_frame};
ghost use Rattle.p9_wire.specs.declared.frame.Frame.TheVariants.{Need, Whole};

use crate::window::Window;
use p9_base::NoMemory;
use p9_guard::Guard;
use p9_tree::Tree;
use p9_wire::{Frame, Stream};
use std::alloc::Allocator;
use std::io;
use std::io::ErrorKind;
use std::marker::Model;

/// What a turn came to.
#[derive(Clone, Copy, Debug, PartialEq, Eq)]
pub enum Turn {
    /// Nothing moved.
    Idle,
    /// Bytes moved, or a frame was answered.
    Moved,
    /// The connection is closed.
    Closed,
}

/// A connection, which serves one session of a guard over a stream.
///
/// It has one buffer for what it reads and one pending reply. Both have room for the greatest
/// frame; real memory is used as far as they are filled.
#[derive(Drop)]
pub struct Conn<S, A: Allocator + Copy> {
    stream: S,
    session: u32,
    // What it has read and is in no frame yet.
    input: Window<A>,
    // What is left to write of a reply.
    output: Window<A>,
    closed: bool,
}

impl<S, A: Allocator + Copy> Model for Conn<S, A> {
    ghost use Rattle.p9_conn.specs.Conn.{Connection};

    ghost Value = { Connection S };

    ghost view = { λ c. record {
      stream = c.stream;
      session = c.session;
      link = record { buffer = c.input; pending = c.output; closed = c.closed };
    } };
}

impl<S: Stream + Drop, A: Allocator + Copy> Conn<S, A> {
    /// A connection over a stream, which serves the session of this name. It has read and written
    /// nothing yet.
    ///
    /// Both buffers are taken here. Where an allocation fails, the stream is given back unchanged.
    pub fn new(alloc: A, stream: S, session: u32) -> Result<Conn<S, A>, (S, NoMemory)>
        ensures ok { IfOk result (λ conn. conn ≡ new_connection stream session) }
        ensures err { IfErr result (λ refused. refused.0 ≡ stream) }
    {
        match buffers(alloc) {
            Ok((input, output)) => Ok(Conn {
                stream,
                session,
                input,
                output,
                closed: false,
            }),
            Err(refused) => Err((stream, refused)),
        }
    }

    /// The name of the session that the connection serves.
    pub fn session(&self) -> u32
        ensures { result ≡ self.now.session }
    {
        self.session
    }

    /// Whether the connection is closed.
    pub fn is_closed(&self) -> bool
        ensures { result ≡ self.now.link.closed }
    {
        self.closed
    }

    /// The stream.
    pub fn stream(&self) -> &S
        ensures { result.now ≡ self.now.stream }
    {
        &self.stream
    }

    /// Does the first of these that can be done, and returns what it came to. `clock` is the reading of
    /// the clock, in seconds since 1970, modulo 2^32.
    ///
    /// A closed connection does nothing. A reply that is pending is written, in one write. A whole
    /// frame is taken out of the buffer and answered at `clock`; its reply is pending then. Where a
    /// size comes that no frame has, session and connection are closed. Else one read puts bytes into
    /// the buffer.
    ///
    /// A stream that would block or was interrupted changes nothing. One that fails otherwise, or
    /// moves no byte, closes the connection and its session, and no other. This takes no memory,
    /// except for what an answer may take.
    ///
    /// When a session is closed, its fids end by rising number. A file that one of them has open with
    /// remove-on-close is removed, and its directory is marked at `clock`, as clunk(5).
    pub fn turn<T: Tree>(&mut self, guard: &mut Guard<T>, clock: u32) -> Turn
        ensures { HasTurned S.remaining S.contents (phase_of self.old.link) clock self.old guard.old
            self.new guard.new result }
    {
        if self.closed {
            return Turn::Closed;
        }
        if !self.output.is_empty() {
            return self.send(guard, clock);
        }
        match self.input.front() {
            Frame::Need => self.receive(guard, clock),
            Frame::Whole(size) => self.answer(guard, clock, size),
            Frame::Broken => self.end(guard, clock),
        }
    }

    // Writes of what is pending. Another reply follows where another whole frame is there.
    fn send<T: Tree>(&mut self, guard: &mut Guard<T>, clock: u32) -> Turn
        requires open { self.old.link.closed ≡ false }
        requires pending { 0 < length self.old.link.pending }
        ensures { HasTurned S.remaining S.contents Sending clock self.old guard.old self.new guard.new
            result }
    {
        let more = matches!(self.input.front(), Frame::Whole(_));
        let written = self.output.send(&mut self.stream, more);
        self.after(written, guard, clock)
    }

    // Answers the frame at the front of the buffer.
    fn answer<T: Tree>(&mut self, guard: &mut Guard<T>, clock: u32, size: usize) -> Turn
        requires open { self.old.link.closed ≡ false }
        requires none { length self.old.link.pending ≡ 0 }
        requires whole { first_frame self.old.link.buffer ≡ Whole size }
        ensures { HasTurned S.remaining S.contents (Answering size) clock self.old guard.old self.new
            guard.new result }
    {
        let frame = &self.input.bytes()[..size];
        self.output.answer(guard, self.session, frame, clock);
        self.input.skip(size);
        Turn::Moved
    }

    // Reads.
    fn receive<T: Tree>(&mut self, guard: &mut Guard<T>, clock: u32) -> Turn
        requires open { self.old.link.closed ≡ false }
        requires need { first_frame self.old.link.buffer ≡ Need }
        ensures { HasTurned S.remaining S.contents Receiving clock self.old guard.old self.new
            guard.new result }
    {
        let read = self.input.receive(&mut self.stream);
        self.after(read, guard, clock)
    }

    // What a call of the stream comes to.
    fn after<T: Tree>(&mut self, moved: io::Result<usize>, guard: &mut Guard<T>, clock: u32) -> Turn
        requires { self.old.link.closed ≡ false }
        ensures { ComesTo moved clock self.old guard.old self.new guard.new result }
    {
        match moved {
            Ok(0) => self.end(guard, clock),
            Ok(_) => Turn::Moved,
            Err(error) => match error.kind() {
                ErrorKind::WouldBlock | ErrorKind::Interrupted => Turn::Idle,
                _ => self.end(guard, clock),
            },
        }
    }

    // Closes the session, if it is open, and the connection.
    fn end<T: Tree>(&mut self, guard: &mut Guard<T>, clock: u32) -> Turn
        ensures ended { IsEnded clock self.old guard.old self.new guard.new result }
    {
        if guard.live(self.session) {
            guard.close(self.session, clock);
        }
        self.closed = true;
        Turn::Closed
    }
}

// The two buffers of a connection.
fn buffers<A: Allocator + Copy>(alloc: A) -> Result<(Window<A>, Window<A>), NoMemory>
    ensures { IfOk result (λ both. (both.0 ≡ []) × (both.1 ≡ [])) }
{
    Ok((Window::new(alloc)?, Window::new(alloc)?))
}
