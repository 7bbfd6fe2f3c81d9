//! A stream that frames go over.

ghost use Rattle.std.specs.Io.{ReadsAtMost, WritesAtMost};
ghost use Rattle.std.specs.Io.KnownBytes.{Keeps, ReadConsumes, WriteAppends};

use std::io;
use std::io::{Read, Write};
use std::net::TcpStream;

/// A stream of two directions, each of which leaves the other as it is: a read changes nothing of
/// what was written, and a write nothing of what is left to read.
pub trait Stream: Read + Write {
    /// Reads once, as [`Read::read`]. An error moves no byte.
    fn receive(&mut self, bytes: &mut [u8]) -> io::Result<usize>
        ensures bound { ReadsAtMost result bytes.new }
        ensures read { ReadConsumes (Self.remaining self.old) (Self.remaining self.new) result
            bytes.new }
        ensures written { Keeps (Self.contents self.old) (Self.contents self.new) };

    /// Writes once, as [`Write::write`]. An error moves no byte.
    ///
    /// `more` says that more bytes will be written soon, whatever comes to be read. A stream may
    /// keep what is written so long, to send all of it together, and need not.
    fn send(&mut self, bytes: &[u8], more: bool) -> io::Result<usize>
        ensures bound { WritesAtMost result bytes.now }
        ensures written { WriteAppends (Self.contents self.old) (Self.contents self.new) result
            bytes.now }
        ensures left { Keeps (Self.remaining self.old) (Self.remaining self.new) };
}

impl Stream for TcpStream {
    fn receive(&mut self, bytes: &mut [u8]) -> io::Result<usize> {
        self.read(bytes)
    }

    fn send(&mut self, bytes: &[u8], _more: bool) -> io::Result<usize> {
        self.write(bytes)
    }
}
