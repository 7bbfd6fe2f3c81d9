//! What a server reports of a file, with texts of its own.

ghost use Rattle.std.specs.Prelude.{◌≡◌, IfOk};
ghost use Rattle.p9_wire.specs.Stat.{stat_view};
ghost use Rattle.p9_client.specs.Entry.{IsEntryOf, IsStat, entry_view};
ghost use Rattle.p9_client.specs.Reply.{gives_no_more, IsTaken};

use crate::error::ClientError;
use crate::reply::reply_of;
use p9_base::{DMDIR, NoMemory, Qid};
use p9_wire::{RMsg, Stat, read_stat};
use std::alloc::Allocator;

/// What a server reports of a file, as stat(5): the fields of [`Stat`], with texts of its own.
#[derive(Drop)]
pub struct Entry<A: Allocator + Copy> {
    pub kind: u16,
    pub dev: u32,
    pub qid: Qid,
    pub mode: u32,
    pub atime: u32,
    pub mtime: u32,
    pub length: u64,
    pub name: String<A>,
    pub uid: String<A>,
    pub gid: String<A>,
    pub muid: String<A>,
}

impl<A: Allocator + Copy> Entry<A> {
    /// The entry of a stat.
    pub fn new(alloc: A, stat: &Stat<'_>) -> Result<Entry<A>, NoMemory>
        ensures { IfOk result (λ entry. entry_view entry ≡ stat_view stat.now) }
    {
        Ok(Entry {
            kind: stat.kind,
            dev: stat.dev,
            qid: stat.qid,
            mode: stat.mode,
            atime: stat.atime,
            mtime: stat.mtime,
            length: stat.length,
            name: String::from_str(alloc, stat.name)?,
            uid: String::from_str(alloc, stat.uid)?,
            gid: String::from_str(alloc, stat.gid)?,
            muid: String::from_str(alloc, stat.muid)?,
        })
    }

    /// The entry of the stat that these bytes are, its size among them, or `None` where they are no
    /// stat.
    pub fn from_bytes(alloc: A, bytes: &[u8]) -> Result<Option<Entry<A>>, NoMemory>
        ensures { IfOk result (IsEntryOf bytes.now) }
    {
        match read_stat(bytes) {
            Some(stat) => Ok(Some(Entry::new(alloc, &stat)?)),
            None => Ok(None),
        }
    }

    /// Whether the file is a directory.
    pub fn is_dir(&self) -> bool {
        self.mode & DMDIR != 0
    }
}

/// The entry of a reply to a stat.
pub fn stat_entry<A: Allocator + Copy>(
    alloc: A,
    tag: u16,
    frame: &[u8],
) -> Result<Entry<A>, ClientError>
    ensures { IsTaken 125 IsStat gives_no_more tag frame.now result }
{
    match reply_of(tag, frame)? {
        RMsg::Stat { stat } => match Entry::new(alloc, &stat) {
            Ok(entry) => Ok(entry),
            Err(NoMemory) => Err(ClientError::NoMemory),
        },
        _ => Err(ClientError::OtherType),
    }
}
