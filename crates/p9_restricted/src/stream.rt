//! A stream over a stream, for a client who may attach as some users only.

ghost use Rattle.std.specs.Prelude.{◌≡◌, ◌<◌, [], IfOk, OnOk, length};
ghost use Rattle.std.specs.Io.{ReadsAtMost, WritesAtMost};
ghost use Rattle.std.specs.Io.KnownBytes.{IsAtEnd, Keeps, ReadConsumes, WriteAppends};
ghost use Rattle.std.specs.Option.{option_map};
ghost use Rattle.p9_restricted.specs.Front.{longest};
ghost use Rattle.p9_restricted.specs.Masked.{masked};
ghost use Rattle.p9_restricted.specs.Stream.{Gave, ReadGave, left_over, new_over, nothing_held};

use crate::held::Held;
use crate::passing::Passing;
use p9_base::User;
use p9_conn::Stream;
use std::alloc::Allocator;
use std::io;
use std::io::{ErrorKind, Read, Write};
use std::marker::Model;

/// A stream over another, whose client may attach as some users only.
///
/// In each Tattach for another user, the bytes of the user's name are replaced by blanks. So it is
/// answered as one for a user who is not listed, where [`has_no_blank_name`] holds of those who are.
/// What may not name a user is passed on, as a name of more than 63 bytes, and so are all other
/// bytes, in both directions. Behind a size that no frame has, all bytes are passed on.
///
/// It takes no memory, and keeps at most 80 bytes.
///
/// [`has_no_blank_name`]: crate::has_no_blank_name
#[derive(Drop)]
pub struct Restricted<S, A: Allocator> {
    stream: S,
    passing: Passing<A>,
    held: Held,
}

impl<S, A: Allocator> Model for Restricted<S, A> {
    ghost use Rattle.std.specs.Prelude.{◌<◌, length};
    ghost use Rattle.p9_restricted.specs.Front.{longest};
    ghost use Rattle.p9_restricted.specs.Stream.{Over};

    ghost Value = { Over S };

    ghost view = { λ r. record { stream = r.stream; gate = r.passing; held = r.held } };

    ghost invariant = { λ r. length r.held.undecided < longest };
}

impl<S: Stream, A: Allocator> Restricted<S, A> {
    /// A stream over this one, of which nothing was read, for a client who may attach as these users.
    pub fn new(stream: S, users: Vec<User, A>) -> Restricted<S, A>
        ensures new { result ≡ new_over stream users.items }
        ensures left { left_over S.remaining result
            ≡ option_map (masked users.items) (S.remaining stream) }
    {
        Restricted {
            stream,
            passing: Passing::new(users),
            held: Held::new(),
        }
    }

    /// The stream below.
    pub fn stream(&self) -> &S
        ensures { result.now ≡ self.now.stream }
    {
        &self.stream
    }

    // Reads once, where nothing is held, and passes on what came.
    fn pass_on(&mut self, bytes: &mut [u8]) -> io::Result<usize>
        requires { self.old.held ≡ nothing_held }
        ensures bound { ReadsAtMost result bytes.new }
        ensures gave { ReadGave S.remaining self.old self.new result bytes.new }
        ensures end { IfOk result (λ count. count ≡ 0 → 0 < length bytes.new
            → IsAtEnd (left_over S.remaining self.new)) }
        ensures written { Keeps (S.contents self.old.stream) (S.contents self.new.stream) }
    {
        let count = self.stream.receive(bytes)?;
        let passed = self.passing.pass(&mut bytes[..count]);
        self.held.hold(&bytes[passed..count]);
        if passed == 0 && count > 0 {
            return Err(io::Error::from(ErrorKind::Interrupted));
        }
        Ok(passed)
    }

    // Reads once more, where no byte is ready. Then some are, or it is an error.
    fn decide(&mut self) -> io::Result<()>
        requires { self.old.held.ready ≡ [] }
        ensures ready { OnOk result (0 < length self.new.held.ready) }
        ensures gave { Gave S.remaining self.old self.new [] }
        ensures written { Keeps (S.contents self.old.stream) (S.contents self.new.stream) }
    {
        let count = self.held.read_on(&mut self.stream)?;
        self.held.pass(&mut self.passing);
        if self.held.is_ready() {
            return Ok(());
        }
        if count == 0 {
            return Err(io::Error::from(ErrorKind::UnexpectedEof));
        }
        Err(io::Error::from(ErrorKind::Interrupted))
    }
}

impl<S: Stream, A: Allocator> Read for Restricted<S, A> {
    ghost remaining = { λ r. left_over S.remaining r };

    /// Reads at most once of the stream below. An error moves no byte.
    ///
    /// # Errors
    ///
    /// Those of the stream below. `Interrupted` where bytes came, but too few to say what they begin:
    /// another read goes on. `UnexpectedEof` where the stream below ends after such bytes.
    fn read(&mut self, bytes: &mut [u8]) -> io::Result<usize>
        ensures bound { ReadsAtMost result bytes.new }
        ensures bytes { ReadConsumes (left_over S.remaining self.old)
            (left_over S.remaining self.new) result bytes.new }
        ensures gave { ReadGave S.remaining self.old self.new result bytes.new }
        ensures written { Keeps (S.contents self.old.stream) (S.contents self.new.stream) }
    {
        if self.held.is_ready() {
            return Ok(self.held.give(bytes));
        }
        if !self.held.is_undecided() {
            return self.pass_on(bytes);
        }
        self.decide()?;
        Ok(self.held.give(bytes))
    }
}

impl<S: Stream, A: Allocator> Write for Restricted<S, A> {
    ghost contents = { λ r. S.contents r.stream };

    fn write(&mut self, bytes: &[u8]) -> io::Result<usize> {
        self.stream.write(bytes)
    }

    fn flush(&mut self) -> io::Result<()> {
        self.stream.flush()
    }
}

impl<S: Stream, A: Allocator> Stream for Restricted<S, A> {
    fn receive(&mut self, bytes: &mut [u8]) -> io::Result<usize>
        ensures bound { ReadsAtMost result bytes.new }
        ensures read { ReadConsumes (left_over S.remaining self.old)
            (left_over S.remaining self.new) result bytes.new }
        ensures gave { ReadGave S.remaining self.old self.new result bytes.new }
        ensures written { Keeps (S.contents self.old.stream) (S.contents self.new.stream) }
    {
        self.read(bytes)
    }

    fn send(&mut self, bytes: &[u8], more: bool) -> io::Result<usize>
        ensures bound { WritesAtMost result bytes.now }
        ensures written { WriteAppends (S.contents self.old.stream) (S.contents self.new.stream)
            result bytes.now }
        ensures left { Keeps (left_over S.remaining self.old) (left_over S.remaining self.new) }
        ensures gave { Gave S.remaining self.old self.new [] }
    {
        self.stream.send(bytes, more)
    }
}
