//! A client's socket.

ghost use Rattle.std.specs.Io.{ReadsAtMost, WritesAtMost};

use p9_conn::Stream;
use std::alloc::Allocator;
use std::io;
use std::io::{BufWriter, ErrorKind, Read, Write};

// How many bytes of replies may wait to be sent together.
const TOGETHER_MAX: usize = 65_536;

/// A client's socket, which doesn't block. What is written to it is sent at once, but where more
/// is to follow soon: that is kept, up to 65,536 bytes, and sent together.
///
/// What is kept is sent before anything is read, and when the socket is dropped, as far as the
/// system takes it then.
#[derive(Drop)]
pub struct Socket<W: Write + Drop, A: Allocator> {
    stream: BufWriter<W, A>,
}

impl<W: Write + Drop, A: Allocator> Socket<W, A> {
    /// The socket of a client that was accepted, over its stream, which doesn't block.
    ///
    /// The buffer of what is kept is taken here. Where that allocation fails, the stream is dropped.
    pub fn new(alloc: A, stream: W) -> io::Result<Socket<W, A>> {
        let stream = BufWriter::with_capacity(alloc, TOGETHER_MAX, stream)?;
        Ok(Socket { stream })
    }

    // Whether nothing is kept.
    fn is_sent(&self) -> bool {
        self.stream.buffer().is_empty()
    }
}

impl<W: Read + Write + Drop, A: Allocator> Read for Socket<W, A> {
    fn read(&mut self, bytes: &mut [u8]) -> io::Result<usize> {
        if !self.is_sent() {
            self.stream.flush()?;
        }
        self.stream.get_mut().read(bytes)
    }
}

impl<W: Write + Drop, A: Allocator> Write for Socket<W, A> {
    // What is kept is sent first, as far as the system takes it.
    fn write(&mut self, bytes: &[u8]) -> io::Result<usize> {
        if self.is_sent() {
            return self.stream.get_mut().write(bytes);
        }
        let written = self.stream.write(bytes)?;
        match self.stream.flush() {
            Err(error) if error.kind() != ErrorKind::WouldBlock => Err(error),
            _ => Ok(written),
        }
    }

    fn flush(&mut self) -> io::Result<()> {
        self.stream.flush()
    }
}

impl<W: Read + Write + Drop, A: Allocator> Stream for Socket<W, A> {
    fn receive(&mut self, bytes: &mut [u8]) -> io::Result<usize> {
        self.read(bytes)
    }

    fn send(&mut self, bytes: &[u8], more: bool) -> io::Result<usize> {
        if more {
            return self.stream.write(bytes);
        }
        self.write(bytes)
    }
}
