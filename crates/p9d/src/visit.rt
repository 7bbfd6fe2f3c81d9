//! A client's stream that tells what happens on it.

ghost use Rattle.std.specs.Io.{ReadsAtMost, WritesAtMost};

use crate::door::Origin;
use crate::gate::Gate;
use crate::journal::{Journal, Level};
use crate::watch::{Attach, Seen, Watch};
use byteorder::{ByteOrder, LittleEndian};
use p9_conn::Stream;
use p9_shown::AsShown;
use std::alloc::{AllocError, Global};
use std::cell::{Cell, RefCell};
use std::fmt::Display;
use std::io::{self, ErrorKind, Read, Write};
use std::rc::Rc;

// The type of an Rattach.
const RATTACH: u8 = 105;

// The most attaches of a client that wait for their reply and are told of.
const ASKED_MAX: usize = 64;

/// What all clients share: the seconds since 1970, the gate of their replies, and the journal.
#[derive(Drop)]
pub(crate) struct Shared {
    pub now: Cell<u64>,
    pub gate: Gate,
    journal: RefCell<Journal>,
}

impl Shared {
    /// At the beginning, before the clock is read.
    pub fn new(journal: Journal) -> Shared {
        Shared {
            now: Cell::new(0),
            gate: Gate::new(),
            journal: RefCell::new(journal),
        }
    }

    /// Tells of an event.
    pub fn tell<D: Display>(&self, level: Level, event: &D) {
        if let Ok(mut journal) = self.journal.try_borrow_mut() {
            journal.tell(level, event);
        }
    }

    /// Begins a second.
    pub fn begin_second(&self, now: u64) {
        self.now.set(now);
        if let Ok(mut journal) = self.journal.try_borrow_mut() {
            journal.begin_second();
        }
    }

    /// Prints what was told. What can't be printed is lost.
    pub fn print(&self, rt: &HostRuntime) {
        if let Ok(mut journal) = self.journal.try_borrow_mut() {
            if !journal.is_empty() {
                let _ = rt.stderr().write_all(journal.lines().as_bytes());
                journal.clear();
            }
        }
    }
}

/// How a visit ended.
#[derive(Clone, Copy)]
pub(crate) enum End {
    /// The client left.
    Left,
    /// Its stream failed.
    Failed(ErrorKind),
}

/// What is known of a client while it is there.
#[derive(Drop)]
pub(crate) struct Visit {
    pub number: u64,
    pub origin: Origin,
    /// How it is shown where the client comes from.
    pub from: String,
    /// When it came, in seconds since 1970.
    pub began: u64,
    /// When it sent the last byte.
    pub last: Cell<u64>,
    /// Whether it has sent a whole Tversion.
    pub has_version: Cell<bool>,
    /// Whether it has sent too little for too long.
    pub is_late: Cell<bool>,
    pub end: Cell<Option<End>>,
}

/// A client's stream that tells what happens on it. Where the client is late, it fails.
///
/// While the gate is closed, a reply that no other one follows at once isn't taken, so a client has one
/// pending as long as others are kept below.
#[derive(Drop)]
pub(crate) struct Visited<S> {
    stream: S,
    notes: Notes,
}

// What is noted of a visit while its bytes come and go.
#[derive(Drop)]
struct Notes {
    visit: Rc<Visit>,
    shared: Rc<Shared>,
    watch: Watch,
    // The attaches that wait for their reply.
    asked: Vec<Attach>,
    // How many bytes of a reply are still to be written.
    left: usize,
}

impl<S> Visited<S> {
    /// The stream of a visit.
    pub fn new(alloc: Global, stream: S, visit: Rc<Visit>, shared: Rc<Shared>) -> Visited<S> {
        Visited {
            stream,
            notes: Notes {
                visit,
                shared,
                watch: Watch::new(alloc),
                asked: Vec::new(alloc),
                left: 0,
            },
        }
    }
}

impl Notes {
    // Notes what a read came to.
    fn note_read(&mut self, read: &io::Result<usize>, bytes: &[u8]) {
        match read {
            Ok(0) if !bytes.is_empty() => self.visit.end.set(Some(End::Left)),
            Ok(count) => {
                self.visit.last.set(self.shared.now.get());
                if let Some(came) = bytes.get(..*count) {
                    let _ = self.look(came);
                }
            }
            Err(error) => self.note_error(error.kind()),
        }
    }

    // Notes that the stream failed, if it did.
    fn note_error(&self, kind: ErrorKind) {
        if kind != ErrorKind::WouldBlock && kind != ErrorKind::Interrupted {
            self.visit.end.set(Some(End::Failed(kind)));
        }
    }

    // Looks at bytes that came.
    fn look(&mut self, bytes: &[u8]) -> Result<(), AllocError> {
        let mut rest = bytes;
        for _ in 0..bytes.len() {
            if rest.is_empty() {
                return Ok(());
            }
            let taken = self.watch.take(rest)?;
            if taken.is_whole {
                self.note_request()?;
            }
            rest = rest.get(taken.count..).unwrap_or(&[]);
        }
        Ok(())
    }

    // Notes the request that the last frame is.
    fn note_request(&mut self) -> Result<(), AllocError> {
        match self.watch.seen(*self.asked.allocator())? {
            Some(Seen::Version) => self.visit.has_version.set(true),
            Some(Seen::Attach(attach)) if self.asked.len() < ASKED_MAX => self.asked.push(attach)?,
            _ => {}
        }
        Ok(())
    }

    // Notes a reply of which these bytes are still to be written.
    fn note_reply(&mut self, bytes: &[u8]) {
        if self.left == 0 && !self.asked.is_empty() && bytes.len() >= 7 {
            let tag = LittleEndian::read_u16(&bytes[5..]);
            if let Some(at) = self
                .asked
                .as_slice()
                .iter()
                .position(|attach| attach.tag == tag)
            {
                let attach = self.asked.remove(at);
                self.tell_attach(&attach, bytes[4] == RATTACH);
            }
        }
        self.left = bytes.len();
    }

    // Notes what a write of a reply came to.
    fn note_written(&mut self, written: &io::Result<usize>) {
        match written {
            Ok(count) => self.left = self.left.saturating_sub(*count),
            Err(error) => self.note_error(error.kind()),
        }
    }

    // Tells as whom a session attached, or was refused.
    fn tell_attach(&self, attach: &Attach, is_granted: bool) {
        let event = Attached {
            visit: &self.visit,
            attach,
            is_granted,
        };
        self.shared.tell(Level::Info, &event);
    }
}

// That a client attached, or was refused.
#[derive(Clone, Copy)]
struct Attached<'a> {
    visit: &'a Visit,
    attach: &'a Attach,
    is_granted: bool,
}

impl Display for Attached<'_> {
    fn fmt<W: std::fmt::Write>(&self, f: &mut std::fmt::Formatter<W>) -> std::fmt::Result {
        let what = if self.is_granted {
            "attached as"
        } else {
            "was refused as"
        };
        let user = AsShown(self.attach.user.as_str());
        write!(f, "client {} {what} {user}", self.visit.number)?;
        if self.attach.name.is_empty() {
            return Ok(());
        }
        write!(f, " at {}", AsShown(self.attach.name.as_str()))
    }
}

impl<S: Stream> Read for Visited<S> {
    ghost remaining = { λ v. S.remaining v.stream };

    fn read(&mut self, bytes: &mut [u8]) -> io::Result<usize> {
        self.receive(bytes)
    }
}

impl<S: Stream> Write for Visited<S> {
    ghost contents = { λ v. S.contents v.stream };

    fn write(&mut self, bytes: &[u8]) -> io::Result<usize> {
        self.send(bytes, false)
    }

    fn flush(&mut self) -> io::Result<()> {
        self.stream.flush()
    }
}

impl<S: Stream> Stream for Visited<S> {
    fn receive(&mut self, bytes: &mut [u8]) -> io::Result<usize> {
        if self.notes.visit.is_late.get() {
            return Err(io::Error::from(ErrorKind::TimedOut));
        }
        let read = self.stream.receive(bytes);
        self.notes.note_read(&read, bytes);
        read
    }

    fn send(&mut self, bytes: &[u8], more: bool) -> io::Result<usize> {
        if self.notes.visit.is_late.get() {
            return Err(io::Error::from(ErrorKind::TimedOut));
        }
        if !more && !self.notes.shared.gate.is_open() {
            return Err(io::Error::from(ErrorKind::WouldBlock));
        }
        self.notes.note_reply(bytes);
        let written = self.stream.send(bytes, more);
        self.notes.note_written(&written);
        written
    }
}
