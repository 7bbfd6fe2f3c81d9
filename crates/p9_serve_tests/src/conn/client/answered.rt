//! A stream whose requests a server in memory answers.

use p9_client::Stream;
use std::alloc::Global;
use std::io;
use std::io::{ErrorKind, Read, Write};

/// A server in memory.
pub trait Server: Drop {
    /// Takes requests that are whole from the input, and adds their replies to the output, which is
    /// empty.
    fn answer(
        &mut self,
        input: &mut Vec<u8, Global>,
        output: &mut Vec<u8, Global>,
    ) -> io::Result<()>;
}

/// What a test sees of a stream to a server.
pub trait Seen: Stream + Drop {
    type Server: Server;

    /// The server.
    fn server(&self) -> &Self::Server;
}

/// A stream to a server. What was written is answered when a reply is to be read and none is left.
#[derive(Drop)]
pub struct Answered<S: Server> {
    server: S,
    /// The number of the call that fails.
    pub broken: usize,
    /// How many bytes a call moves at most.
    pub most: usize,
    calls: usize,
    // What was written and is not answered yet.
    input: Vec<u8, Global>,
    // The replies, and how many bytes of them were read.
    output: Vec<u8, Global>,
    read: usize,
}

impl<S: Server> Answered<S> {
    /// A stream to this server, of which no call fails.
    pub fn new(alloc: Global, server: S) -> Answered<S> {
        Answered {
            server,
            broken: usize::MAX,
            most: usize::MAX,
            calls: 0,
            input: Vec::new(alloc),
            output: Vec::new(alloc),
            read: 0,
        }
    }

    // Counts a call, which may be the one that fails.
    fn count_call(&mut self) -> io::Result<()> {
        let call = self.calls;
        self.calls = call.saturating_add(1);
        if call == self.broken {
            return Err(io::Error::from(ErrorKind::ConnectionReset));
        }
        Ok(())
    }
}

impl<S: Server> Read for Answered<S> {
    fn read(&mut self, buf: &mut [u8]) -> io::Result<usize> {
        self.count_call()?;
        if self.read >= self.output.len() {
            self.output.clear();
            self.read = 0;
            self.server.answer(&mut self.input, &mut self.output)?;
        }
        let start = self.read.min(self.output.len());
        let rest = &self.output[start..];
        let count = rest.len().min(buf.len()).min(self.most);
        buf[..count].copy_from_slice(&rest[..count]);
        self.read = start.saturating_add(count);
        Ok(count)
    }
}

impl<S: Server> Write for Answered<S> {
    fn write(&mut self, buf: &[u8]) -> io::Result<usize> {
        self.count_call()?;
        let count = buf.len().min(self.most);
        self.input.extend_from_slice(&buf[..count])?;
        Ok(count)
    }

    fn flush(&mut self) -> io::Result<()> {
        Ok(())
    }
}

impl<S: Server> Stream for Answered<S> {
    fn receive(&mut self, bytes: &mut [u8]) -> io::Result<usize> {
        self.read(bytes)
    }

    fn send(&mut self, bytes: &[u8], _more: bool) -> io::Result<usize> {
        self.write(bytes)
    }
}

impl<S: Server> Seen for Answered<S> {
    type Server = S;

    fn server(&self) -> &S {
        &self.server
    }
}
