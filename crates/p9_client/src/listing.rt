//! The contents of a directory: stats, one after another.

ghost use Rattle.std.specs.Prelude.{◌≡◌, ◌<◌, ◌≤◌, ◌^◌, ◌++◌, IfOk, OnOk, length};
ghost use Rattle.p9_client.specs.Files.{GoesOn, ReadsWhole, spelled};

use crate::entry::Entry;
use crate::file_error::FileError;
use crate::session::Session;
use byteorder::{ByteOrder, LittleEndian};
use p9_wire::Stream;
use std::alloc::Allocator;

/// The most bytes of a directory's contents that are listed.
pub const LISTING_MAX: u32 = 67_108_864;

// A stat is shorter than this.
const STAT_LIMIT: usize = 65_536;

impl<S: Stream + Drop, A: Allocator + Copy> Session<S, A> {
    /// The entries of the directory of a fid, which is open for reading, in the server's order. They
    /// are allocated by `alloc`.
    ///
    /// # Errors
    ///
    /// Those of [`Session::list_within`], with [`LISTING_MAX`] as the limit.
    pub fn list<B: Allocator + Copy>(
        &mut self,
        alloc: B,
        fid: u32,
    ) -> Result<Vec<Entry<B>, B>, FileError>
        ensures goes_on { GoesOn self.old self.new result }
        ensures listed { IfOk result (λ entries. ReadsWhole S.remaining S.contents fid
            (spelled entries.items) self.old self.new) }
    {
        self.list_within(alloc, fid, LISTING_MAX)
    }

    /// The entries of a directory, as [`Session::list`], of so many bytes at most.
    ///
    /// # Errors
    ///
    /// [`FileError::Session`] and [`FileError::NoMemory`]. [`FileError::BadEntry`] where what a
    /// read gives ends within an entry, or has one that is no stat. [`FileError::Endless`] where
    /// the contents are longer than `most`.
    pub fn list_within<B: Allocator + Copy>(
        &mut self,
        alloc: B,
        fid: u32,
        most: u32,
    ) -> Result<Vec<Entry<B>, B>, FileError>
        ensures goes_on { GoesOn self.old self.new result }
        ensures listed { IfOk result (λ entries. ReadsWhole S.remaining S.contents fid
            (spelled entries.items) self.old self.new) }
    {
        let mut chunk = self.chunk()?;
        let mut entries = Vec::new(alloc);
        let mut offset = 0u64;
        while offset <= u64::from(most) {
            let count = self.read(fid, offset, chunk.as_mut_slice())?;
            if count == 0 {
                return Ok(entries);
            }
            if let Err(error) = push_entries(alloc, &chunk[..count], &mut entries) {
                return Err(self.ended_by(error));
            }
            offset += count as u64;
        }
        Err(self.ended_by(FileError::Endless))
    }
}

// Adds the entries that these bytes are. After an error some of them may have been added.
fn push_entries<B: Allocator + Copy>(
    alloc: B,
    bytes: &[u8],
    entries: &mut Vec<Entry<B>, B>,
) -> Result<(), FileError>
    ensures { OnOk result (spelled entries.new.items ≡ spelled entries.old.items ++ bytes.now) }
{
    let mut rest = bytes;
    while !rest.is_empty() {
        let len = stat_len(rest)?;
        match Entry::from_bytes(alloc, &rest[..len])? {
            Some(entry) => entries.push(entry)?,
            None => return Err(FileError::BadEntry),
        }
        rest = &rest[len..];
    }
    Ok(())
}

// How long the stat is with which these bytes begin.
fn stat_len(bytes: &[u8]) -> Result<usize, FileError>
    ensures within { IfOk result (λ len. len ≤ length bytes.now) }
    ensures some { IfOk result (λ len. 2 ≤ len) }
    ensures short { IfOk result (λ len. len < 2 ^ 16) }
{
    if bytes.len() < 2 {
        return Err(FileError::BadEntry);
    }
    let len = LittleEndian::read_u16(bytes) as usize + 2;
    if len > bytes.len() || len >= STAT_LIMIT {
        return Err(FileError::BadEntry);
    }
    Ok(len)
}
