//! A file that is read whole.

ghost use Rattle.std.specs.Prelude.{◌≡◌, ℕ, ◌+◌, ◌-◌, ◌<◌, ◌≤◌, ◌^◌, false, true, IfErr, IfOk, IsTrue, List, length};
ghost use Rattle.std.specs.Io.KnownBytes.{Appends};
ghost use Rattle.p9_wire.specs.Message.{Rread};
ghost use Rattle.p9_client.specs.Ahead.{FindsReply, SendsReads, TakesReads, ahead_max};
ghost use Rattle.p9_client.specs.Files.{GoesOn, ReadsFile, ReadsOn, ends_file};

use crate::ahead::AHEAD_MAX;
use crate::error::ClientError;
use crate::file_error::FileError;
use crate::replies::Replies;
use crate::reply::{Asked, read_bytes};
use crate::session::{Session, tag_after};
use p9_wire::{Stream, TMsg};
use std::alloc::Allocator;
use std::io;
use std::io::{ErrorKind, Write};

// A file is shorter than this.
const FILE_LIMIT: u64 = 1 << 63;

impl<S: Stream + Drop, A: Allocator + Copy> Session<S, A> {
    /// Reads the file of a fid from its beginning to its end, and writes its bytes to a writer. The
    /// fid is open for reading. Returns how many bytes these are.
    ///
    /// Once a read gave as many bytes as a frame has room for, up to [`AHEAD_MAX`] of them are sent at
    /// once, each from where the one before ends. Where one of them gives fewer bytes, what those
    /// behind it give is dropped, and the next read is from where these bytes end.
    ///
    /// # Errors
    ///
    /// [`FileError::Session`], [`FileError::Output`] where the writer fails, [`FileError::NoMemory`]
    /// where it has no memory, and [`FileError::Endless`] where 2^63 bytes come. The writer may have
    /// a part of the file.
    pub fn read_to<W: Write>(&mut self, fid: u32, out: &mut W) -> Result<u64, FileError>
        ensures goes_on { GoesOn self.old self.new result }
        ensures whole { IfOk result (λ len. (bytes : List ℕ) × (length bytes ≡ len)
            × ReadsFile S.remaining S.contents fid bytes self.old self.new
            × Appends (W.contents out.old) (W.contents out.new) bytes) }
    {
        let most = self.data_max();
        let mut span = most;
        let mut offset = 0;
        while offset < FILE_LIMIT {
            let count = self.read_ahead(fid, offset, span, out)?;
            if count == 0 {
                return Ok(offset);
            }
            span = if count < span { most } else { AHEAD_MAX * most };
            offset += count as u64;
        }
        Err(self.ended_by(FileError::Endless))
    }

    // Reads so many bytes from an offset on: sends reads of its parts, and takes the replies. Returns
    // how many bytes were written to the writer, which is 0 at the end of the file.
    fn read_ahead<W: Write>(
        &mut self,
        fid: u32,
        start: u64,
        len: usize,
        out: &mut W,
    ) -> Result<usize, FileError>
        requires some { 0 < len }
        requires fits { start + len < 2 ^ 64 }
        ensures ok { IfOk result (λ count. (count ≤ len) × (self.new.failed ≡ false)
            × (self.new.msize ≡ self.old.msize)
            × ((bytes : List ℕ) × (length bytes ≡ count)
            × ReadsOn S.remaining S.contents fid start bytes self.old self.new
            × Appends (W.contents out.old) (W.contents out.new) bytes)) }
        ensures err { IfErr result (λ error. IsTrue (ends_file error) → self.new.failed ≡ true) }
    {
        let tag = self.tag();
        let count = self.send_reads(fid, start, len)?;
        let replies = self.receive_replies(tag, count)?;
        match take_reads(&replies, tag, self.data_max(), len, out) {
            Ok(read) => Ok(read),
            Err(error) => Err(self.ended_by(error)),
        }
    }

    // Sends reads of the parts of so many bytes after an offset, up to `AHEAD_MAX`. Returns how many
    // these are.
    fn send_reads(&mut self, fid: u32, start: u64, len: usize) -> Result<usize, ClientError>
        requires fits { start + len < 2 ^ 64 }
        ensures ok { IfOk result (SendsReads S.remaining S.contents fid start len self.old self.new) }
        ensures some { IfOk result (λ count. 0 < len → 0 < count × (self.new.failed ≡ false)) }
        ensures few { IfOk result (λ count. count ≤ ahead_max) }
        ensures err { IfErr result (λ error. self.new.failed ≡ true) }
    {
        let most = self.data_max();
        let mut count = 0;
        let mut at = 0;
        while at < len && count < AHEAD_MAX {
            let size = most.min(len - at);
            let tag = self.tag();
            self.send(
                tag,
                &TMsg::Read {
                    fid,
                    offset: start + at as u64,
                    count: size as u32,
                },
            )?;
            count += 1;
            at += size;
        }
        Ok(count)
    }
}

// Takes the replies to reads of the parts of so many bytes, the first with this tag. Their bytes are
// written to the writer, up to those of the first that is short, and what those after it give is
// dropped. Returns how many bytes were written. After a refusal the others are looked at too.
fn take_reads<W: Write, A: Allocator + Copy>(
    replies: &Replies<A>,
    first: u16,
    most: usize,
    len: usize,
    out: &mut W,
) -> Result<usize, FileError>
    ensures { IfOk result (λ total. (total ≤ len) × ((bytes : List ℕ) × (length bytes ≡ total)
        × TakesReads replies.now first most len bytes
        × Appends (W.contents out.old) (W.contents out.new) bytes)) }
{
    let mut tag = first;
    let mut total = 0;
    for at in 0..replies.len() {
        let size = most.min(len - total);
        let read = match take_read(replies, tag, size, out) {
            Ok(read) => read,
            Err(error) => {
                if !error.ends_session() {
                    let behind = replies.len() - at - 1;
                    replies.drop_from(Asked::Read, tag_after(tag), behind, most)?;
                }
                return Err(error);
            }
        };
        tag = tag_after(tag);
        total += read;
        if read < size {
            replies.drop_from(Asked::Read, tag, replies.len() - at - 1, most)?;
            return Ok(total);
        }
    }
    Ok(total)
}

// Takes the reply to a read of at most so many bytes, and writes its bytes to the writer. Returns how
// many these are.
fn take_read<W: Write, A: Allocator + Copy>(
    replies: &Replies<A>,
    tag: u16,
    most: usize,
    out: &mut W,
) -> Result<usize, FileError>
    ensures { IfOk result (λ count. (count ≤ most) × ((bytes : List ℕ) × (length bytes ≡ count)
        × FindsReply replies.now tag (Rread bytes)
        × Appends (W.contents out.old) (W.contents out.new) bytes)) }
{
    let bytes = read_bytes(tag, replies.with_tag(tag)?, most)?;
    match out.write_all(bytes) {
        Ok(()) => Ok(bytes.len()),
        Err(error) => Err(output_error(error)),
    }
}

// Why a writer did not take what was read.
fn output_error(error: io::Error) -> FileError
    ensures { ends_file result ≡ false }
{
    if error.kind() == ErrorKind::OutOfMemory {
        FileError::NoMemory
    } else {
        FileError::Output(error)
    }
}
