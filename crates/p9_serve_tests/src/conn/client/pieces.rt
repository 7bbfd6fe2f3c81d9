//! A server of one file in memory, which does one thing wrong, or gives bytes in place of its answers.

use crate::conn::client::answered::Server;
use p9_wire::{Frame, TMsg, frame_of, read_t};
use std::alloc::Global;
use std::io;

/// What the server does wrong at a request.
#[derive(Clone, Copy)]
pub enum Fault {
    /// Nothing.
    Nothing,
    /// It reads or writes half of the bytes.
    Short,
    /// It refuses the request.
    Refused,
    /// It refuses the request, and answers the one behind it with another type.
    RefusedAndOther,
    /// It answers the request after the one behind it, if that is there.
    Late,
    /// It answers each request that waits before those that came earlier.
    Backwards,
    /// It answers the request by a tag that nobody waits for, and none after it.
    OtherTag,
    /// It answers the request by the tag of the one before it, and none after it.
    Again,
    /// It says that it read or wrote one byte more than was asked.
    More,
    /// It answers with another type.
    OtherType,
    /// It answers nothing.
    Silent,
}

/// What this word says.
pub fn fault_of(word: &str) -> Fault {
    match word {
        "short" => Fault::Short,
        "refused" => Fault::Refused,
        "refused_and_other" => Fault::RefusedAndOther,
        "late" => Fault::Late,
        "backwards" => Fault::Backwards,
        "other_tag" => Fault::OtherTag,
        "again" => Fault::Again,
        "more" => Fault::More,
        "other_type" => Fault::OtherType,
        _ => Fault::Nothing,
    }
}

/// A server of one file.
#[derive(Drop)]
pub struct Pieces {
    /// The bytes that it gives once, whatever is asked, in place of its answers.
    pub given: Vec<u8, Global>,
    pub file: Vec<u8, Global>,
    // The reply that is late.
    late: Vec<u8, Global>,
    fault: Fault,
    // The number of the request at which it does that.
    place: usize,
    requests: usize,
    /// The most requests that waited for an answer at once.
    pub most_waiting: usize,
}

// More bytes than a read asks for.
const MORE: [u8; 256] = [0; 256];

impl Pieces {
    /// A server of this file, which does this wrong at the request of this number.
    pub fn new(alloc: Global, file: Vec<u8, Global>, fault: Fault, place: usize) -> Pieces {
        Pieces {
            given: Vec::new(alloc),
            file,
            late: Vec::new(alloc),
            fault,
            place,
            requests: 0,
            most_waiting: 0,
        }
    }

    // What it does wrong at the next request.
    fn next_fault(&mut self) -> Fault {
        let request = self.requests;
        self.requests = request.saturating_add(1);
        match self.fault {
            Fault::Backwards => Fault::Backwards,
            fault if request == self.place => fault,
            Fault::RefusedAndOther if request == self.place.saturating_add(1) => Fault::OtherType,
            Fault::OtherTag | Fault::Again if self.place < request => Fault::Silent,
            _ => Fault::Nothing,
        }
    }

    // Answers the requests of whole frames, up to a hundred.
    fn answer_all(&mut self, input: &[u8], output: &mut Vec<u8, Global>) -> io::Result<()> {
        let mut rest = input;
        let mut waiting = 0usize;
        for _ in 0..100 {
            let Frame::Whole(size) = frame_of(rest) else {
                break;
            };
            let (frame, behind) = rest.split_at(size.min(rest.len()));
            self.answer_one(frame, output)?;
            rest = behind;
            waiting = waiting.saturating_add(1);
        }
        self.most_waiting = self.most_waiting.max(waiting);
        self.place_late(output)
    }

    // Answers one request.
    fn answer_one(&mut self, frame: &[u8], output: &mut Vec<u8, Global>) -> io::Result<()> {
        let fault = self.next_fault();
        let mut reply = Vec::new(*self.file.allocator());
        if let Some((tag, message)) = read_t(frame) {
            self.reply(fault, tag_for(fault, tag), &message, &mut reply)?;
        }
        self.place_reply(fault, reply, output)
    }

    // The reply to a request: what is read, or how many bytes were written; nothing for others.
    fn reply(
        &mut self,
        fault: Fault,
        tag: u16,
        message: &TMsg<'_>,
        reply: &mut Vec<u8, Global>,
    ) -> io::Result<()> {
        match (fault, message) {
            (Fault::Silent, _) => Ok(()),
            (Fault::Refused | Fault::RefusedAndOther, _) => {
                put_frame(reply, 107, tag, &[2, 0], b"no")
            }
            (Fault::OtherType, _) | (_, TMsg::Clunk { .. }) => put_frame(reply, 121, tag, b"", b""),
            (_, TMsg::Read { offset, count, .. }) => {
                let data = self.part(fault, *offset as usize, *count as usize);
                put_frame(reply, 117, tag, &len_of(data).to_le_bytes(), data)
            }
            (_, TMsg::Write { offset, bytes, .. }) => {
                let bytes = moved(fault, bytes);
                self.store(*offset as usize, bytes)?;
                let more = u32::from(matches!(fault, Fault::More));
                let count = len_of(bytes).saturating_add(more);
                put_frame(reply, 119, tag, &count.to_le_bytes(), b"")
            }
            _ => Ok(()),
        }
    }

    // The bytes of the file from an offset on that a read of so many gives.
    fn part(&self, fault: Fault, offset: usize, count: usize) -> &[u8] {
        if matches!(fault, Fault::More) {
            return MORE.get(..count.saturating_add(1)).unwrap_or(&[]);
        }
        let rest = self.file.get(offset..).unwrap_or(&[]);
        moved(fault, &rest[..rest.len().min(count)])
    }

    // Puts bytes behind this place, and nothing behind them.
    fn store(&mut self, place: usize, bytes: &[u8]) -> io::Result<()> {
        self.file.resize(place, 0)?;
        self.file.extend_from_slice(bytes)?;
        Ok(())
    }

    // Adds a reply to the output. One that is late waits for the next one.
    fn place_reply(
        &mut self,
        fault: Fault,
        mut reply: Vec<u8, Global>,
        output: &mut Vec<u8, Global>,
    ) -> io::Result<()> {
        match fault {
            Fault::Late => {
                self.late = reply;
                Ok(())
            }
            Fault::Backwards => {
                reply.extend_from_slice(output.as_slice())?;
                *output = reply;
                Ok(())
            }
            _ => {
                output.extend_from_slice(reply.as_slice())?;
                self.place_late(output)
            }
        }
    }

    // Adds the reply that is late, if there is one.
    fn place_late(&mut self, output: &mut Vec<u8, Global>) -> io::Result<()> {
        output.extend_from_slice(self.late.as_slice())?;
        self.late.clear();
        Ok(())
    }
}

impl Server for Pieces {
    fn answer(
        &mut self,
        input: &mut Vec<u8, Global>,
        output: &mut Vec<u8, Global>,
    ) -> io::Result<()> {
        if self.given.is_empty() {
            self.answer_all(input.as_slice(), output)?;
        } else {
            output.extend_from_slice(self.given.as_slice())?;
            self.given.clear();
        }
        input.clear();
        Ok(())
    }
}

// The tag of the reply to a request of this tag.
fn tag_for(fault: Fault, tag: u16) -> u16 {
    match fault {
        Fault::OtherTag => tag.wrapping_add(100),
        Fault::Again => tag.wrapping_sub(1),
        _ => tag,
    }
}

// Those of the bytes that are read or written.
fn moved(fault: Fault, bytes: &[u8]) -> &[u8] {
    match fault {
        Fault::Short => &bytes[..bytes.len() / 2],
        _ => bytes,
    }
}

// Adds the frame of a reply of this type.
fn put_frame(
    reply: &mut Vec<u8, Global>,
    kind: u8,
    tag: u16,
    head: &[u8],
    data: &[u8],
) -> io::Result<()> {
    let size = len_of(head).saturating_add(len_of(data)).saturating_add(7);
    reply.extend_from_slice(&size.to_le_bytes())?;
    reply.push(kind)?;
    reply.extend_from_slice(&tag.to_le_bytes())?;
    reply.extend_from_slice(head)?;
    reply.extend_from_slice(data)?;
    Ok(())
}

// How many bytes these are, as a message says it.
fn len_of(bytes: &[u8]) -> u32 {
    u32::try_from(bytes.len()).unwrap_or(u32::MAX)
}
