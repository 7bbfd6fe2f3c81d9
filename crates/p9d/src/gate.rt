//! A gate, through which no reply leaves while it is closed.

ghost use Rattle.std.specs.Io.{ReadsAtMost, WritesAtMost};

use crate::visit::Shared;
use std::cell::Cell;
use std::io::{self, ErrorKind, Read, Write};
use std::rc::Rc;

/// A gate of all clients, which is open at first.
#[derive(Drop)]
pub(crate) struct Gate {
    is_open: Cell<bool>,
}

impl Gate {
    /// An open gate.
    pub fn new() -> Gate {
        Gate {
            is_open: Cell::new(true),
        }
    }

    /// Whether replies may leave.
    pub fn is_open(&self) -> bool {
        self.is_open.get()
    }

    /// Lets replies leave.
    pub fn open(&self) {
        self.is_open.set(true);
    }

    /// Lets no reply leave.
    pub fn close(&self) {
        self.is_open.set(false);
    }
}

/// A client's stream behind the gate. While that is closed a write would block, without a call of the
/// system.
#[derive(Drop)]
pub(crate) struct Gated<S> {
    stream: S,
    shared: Rc<Shared>,
}

impl<S> Gated<S> {
    /// A stream behind the gate of those who share this.
    pub fn new(stream: S, shared: Rc<Shared>) -> Gated<S> {
        Gated { stream, shared }
    }
}

impl<S: Read> Read for Gated<S> {
    ghost remaining = { λ g. S.remaining g.stream };

    fn read(&mut self, bytes: &mut [u8]) -> io::Result<usize> {
        self.stream.read(bytes)
    }
}

impl<S: Write> Write for Gated<S> {
    ghost contents = { λ g. S.contents g.stream };

    fn write(&mut self, bytes: &[u8]) -> io::Result<usize> {
        if !self.shared.gate.is_open() {
            return Err(io::Error::from(ErrorKind::WouldBlock));
        }
        self.stream.write(bytes)
    }

    fn flush(&mut self) -> io::Result<()> {
        self.stream.flush()
    }
}
