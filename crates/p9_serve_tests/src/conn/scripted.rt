//! A stream over bytes in memory, whose calls answer by a list.

use p9_conn::Stream;
use std::alloc::{AllocError, Global};
use std::collections::VecDeque;
use std::io;
use std::io::{Cursor, ErrorKind, Read, Write};

/// What a call does.
#[derive(Clone, Copy, Debug, PartialEq, Eq)]
pub enum Answer {
    /// It moves at most so many bytes.
    Moves(usize),
    /// It would block.
    WouldBlock,
    /// It was interrupted.
    Interrupted,
    /// It fails otherwise.
    Broken,
}

/// What was done to a stream.
#[derive(Clone, Copy, Debug, PartialEq, Eq)]
pub struct Counts {
    /// How many calls were made.
    pub calls: u64,
    /// How many reads and writes moved bytes.
    pub reads: u64,
    pub writes: u64,
    /// How many writes were told that more bytes will follow.
    pub with_more: u64,
}

/// A stream over bytes in memory, of which a test sees what was done to it.
pub trait Tape: Stream + Drop {
    /// A stream that gives these bytes. Its list is empty.
    fn new(alloc: Global, input: Vec<u8, Global>, most: usize) -> Self;

    /// Puts an answer at the end of the list of its calls.
    fn then(&mut self, answer: Answer) -> Result<(), AllocError>;

    /// Whether its list is used up, and its bytes were read.
    fn is_used_up(&self) -> bool;

    /// What was written to it.
    fn output(&self) -> &[u8];

    /// What was done to it.
    fn counts(&self) -> Counts;
}

/// A stream over bytes in memory. Its calls, reads and writes together, answer by a list, and once
/// that is used up each moves at most so many bytes. A read that finds no byte would block then.
#[derive(Drop)]
pub struct Scripted {
    answers: VecDeque<Answer, Global>,
    most: usize,
    input: Cursor<Vec<u8, Global>>,
    output: Vec<u8, Global>,
    counts: Counts,
}

impl Scripted {
    // How many bytes a call may move, by the front of the list.
    fn room(&mut self) -> io::Result<usize> {
        self.counts.calls = self.counts.calls.saturating_add(1);
        match self.answers.pop_front() {
            Some(Answer::Moves(count)) => Ok(count),
            Some(Answer::WouldBlock) => Err(io::Error::from(ErrorKind::WouldBlock)),
            Some(Answer::Interrupted) => Err(io::Error::from(ErrorKind::Interrupted)),
            Some(Answer::Broken) => Err(io::Error::from(ErrorKind::ConnectionReset)),
            None => Ok(self.most),
        }
    }
}

impl Tape for Scripted {
    fn new(alloc: Global, input: Vec<u8, Global>, most: usize) -> Scripted {
        Scripted {
            answers: VecDeque::new(alloc),
            most,
            input: Cursor::new(input),
            output: Vec::new(alloc),
            counts: Counts {
                calls: 0,
                reads: 0,
                writes: 0,
                with_more: 0,
            },
        }
    }

    fn then(&mut self, answer: Answer) -> Result<(), AllocError> {
        self.answers.push_back(answer)?;
        Ok(())
    }

    fn is_used_up(&self) -> bool {
        self.answers.is_empty() && self.input.position() >= self.input.get_ref().len() as u64
    }

    fn output(&self) -> &[u8] {
        self.output.as_slice()
    }

    fn counts(&self) -> Counts {
        self.counts
    }
}

impl Read for Scripted {
    fn read(&mut self, buf: &mut [u8]) -> io::Result<usize> {
        let is_blocked = self.is_used_up();
        let room = self.room()?.min(buf.len());
        if is_blocked {
            return Err(io::Error::from(ErrorKind::WouldBlock));
        }
        let count = self.input.read(&mut buf[..room])?;
        if count > 0 {
            self.counts.reads = self.counts.reads.saturating_add(1);
        }
        Ok(count)
    }
}

impl Write for Scripted {
    fn write(&mut self, buf: &[u8]) -> io::Result<usize> {
        let room = self.room()?.min(buf.len());
        self.output.extend_from_slice(&buf[..room])?;
        if room > 0 {
            self.counts.writes = self.counts.writes.saturating_add(1);
        }
        Ok(room)
    }

    fn flush(&mut self) -> io::Result<()> {
        Ok(())
    }
}

impl Stream for Scripted {
    fn receive(&mut self, bytes: &mut [u8]) -> io::Result<usize> {
        self.read(bytes)
    }

    fn send(&mut self, bytes: &[u8], more: bool) -> io::Result<usize> {
        if more {
            self.counts.with_more = self.counts.with_more.saturating_add(1);
        }
        self.write(bytes)
    }
}
