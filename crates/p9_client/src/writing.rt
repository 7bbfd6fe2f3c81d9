//! A file that is written whole.

ghost use Rattle.std.specs.Prelude.{◌≡◌, ◌+◌, ◌-◌, ◌<◌, ◌≤◌, ◌^◌, false, true, IfErr, IfOk, IsTrue, length};
ghost use Rattle.p9_client.specs.Ahead.{SendsWrites, TakesWrites, ahead_max};
ghost use Rattle.p9_client.specs.Files.{GoesOn, WritesOn, ends_file};
ghost use Rattle.p9_client.specs.Reason.{ends};

use crate::ahead::AHEAD_MAX;
use crate::error::ClientError;
use crate::file_error::FileError;
use crate::replies::Replies;
use crate::reply::{Asked, written_count};
use crate::session::{Session, tag_after};
use p9_wire::{Stream, TMsg};
use std::alloc::Allocator;

impl<S: Stream + Drop, A: Allocator + Copy> Session<S, A> {
    /// Writes bytes to the file of a fid, from its beginning on. The fid is open for writing.
    ///
    /// The bytes go out in pieces, as many as a frame has room for in each. Once a piece was written
    /// whole, up to [`AHEAD_MAX`] of them are sent at once. Where the server writes a part of a piece,
    /// the bytes after this part are sent again, whatever became of the pieces behind it.
    ///
    /// # Errors
    ///
    /// [`FileError::Session`], and [`FileError::Stuck`] where the server writes nothing of what it
    /// is sent. The file may have some of the bytes.
    pub fn write_whole(&mut self, fid: u32, bytes: &[u8]) -> Result<(), FileError>
        ensures goes_on { GoesOn self.old self.new result }
        ensures whole { IfOk result (λ nothing. WritesOn S.remaining S.contents fid bytes.now 0
            (length bytes.now) self.old self.new) }
    {
        let most = self.data_max();
        let mut span = most;
        let mut written = 0;
        while written < bytes.len() {
            let len = span.min(bytes.len() - written);
            let count = self.write_ahead(fid, bytes, written, len)?;
            if count == 0 {
                return Err(FileError::Stuck);
            }
            span = if count < len { most } else { AHEAD_MAX * most };
            written += count;
        }
        Ok(())
    }

    // Writes so many of the bytes from a place on: sends their parts, and takes the replies. Returns
    // how many of them, from the first on, the server wrote.
    fn write_ahead(
        &mut self,
        fid: u32,
        bytes: &[u8],
        start: usize,
        len: usize,
    ) -> Result<usize, FileError>
        requires some { 0 < len }
        requires within { start + len ≤ length bytes.now }
        ensures ok { IfOk result (λ count. (count ≤ len) × (self.new.failed ≡ false)
            × (self.new.msize ≡ self.old.msize)
            × WritesOn S.remaining S.contents fid bytes.now start (start + count) self.old self.new) }
        ensures err { IfErr result (λ error. IsTrue (ends_file error) → self.new.failed ≡ true) }
    {
        let tag = self.tag();
        let count = self.send_writes(fid, bytes, start, len)?;
        let replies = self.receive_replies(tag, count)?;
        let taken = take_writes(&replies, tag, self.data_max(), len);
        Ok(self.settled(taken)?)
    }

    // Sends the parts of so many of the bytes from a place on, up to `AHEAD_MAX`. Returns how many
    // these are.
    fn send_writes(
        &mut self,
        fid: u32,
        bytes: &[u8],
        start: usize,
        len: usize,
    ) -> Result<usize, ClientError>
        requires within { start + len ≤ length bytes.now }
        ensures ok { IfOk result (SendsWrites S.remaining S.contents fid start len bytes.now self.old
            self.new) }
        ensures some { IfOk result (λ count. 0 < len → 0 < count × (self.new.failed ≡ false)) }
        ensures few { IfOk result (λ count. count ≤ ahead_max) }
        ensures err { IfErr result (λ error. self.new.failed ≡ true) }
    {
        let most = self.data_max();
        let mut count = 0;
        let mut at = 0;
        while at < len && count < AHEAD_MAX {
            let size = most.min(len - at);
            let tag = self.tag();
            let offset = start + at;
            self.send(
                tag,
                &TMsg::Write {
                    fid,
                    offset: offset as u64,
                    bytes: &bytes[offset..offset + size],
                },
            )?;
            count += 1;
            at += size;
        }
        Ok(count)
    }
}

// Takes the replies to writes of the parts of so many bytes, the first with this tag. Returns how many
// bytes were written up to the end of the first part that was not written whole. What the replies
// after it say does not matter. After a refusal the others are looked at too.
fn take_writes<A: Allocator + Copy>(
    replies: &Replies<A>,
    first: u16,
    most: usize,
    len: usize,
) -> Result<usize, ClientError>
    ensures { IfOk result (λ total. (total ≤ len) × TakesWrites replies.now first most len total) }
{
    let mut tag = first;
    let mut total = 0;
    for at in 0..replies.len() {
        let size = most.min(len - total);
        let written = match written_count(tag, replies.with_tag(tag)?, size) {
            Ok(written) => written,
            Err(error) => {
                if !error.ends_session() {
                    let behind = replies.len() - at - 1;
                    replies.drop_from(Asked::Write, tag_after(tag), behind, most)?;
                }
                return Err(error);
            }
        };
        tag = tag_after(tag);
        total += written;
        if written < size {
            replies.drop_from(Asked::Write, tag, replies.len() - at - 1, most)?;
            return Ok(total);
        }
    }
    Ok(total)
}
