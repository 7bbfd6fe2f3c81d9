//! What a reply gives, by its frame.

ghost use Rattle.std.specs.Prelude.{◌≡◌, ◌≤◌, OnErr, length};
ghost use Rattle.p9_wire.specs.Message.{Rclunk, Rremove, Rwstat};
ghost use Rattle.p9_client.specs.Reply.{IsDroppedReply, IsReplyOf, IsTaken, gives_no_more};
ghost use Rattle.p9_client.specs.Kinds.{AgreesOn, ExceedsBytes, ExceedsCount, ExceedsQids, IsAttached};
ghost use Rattle.p9_client.specs.Kinds.{IsCreated, IsEmptyReply, IsOpened, IsRead, IsReadOf, IsWalked, IsWritten};
ghost use Rattle.p9_client.specs.Kinds.{OffersMore};

use crate::error::ClientError;
use crate::reason::Reason;
use p9_base::Qid;
use p9_wire::{Qids, RMsg, read_r};

/// The dialect that a session speaks.
pub const VERSION: &str = "9P2000";

/// The least msize that a session takes of a server: it has room for the fields of each message
/// and some text.
pub const MSIZE_MIN: usize = 256;

/// A file that is open: its qid, and the most bytes that one message reads or writes, or 0 where
/// the server does not say.
#[derive(Clone, Copy, Debug, PartialEq, Eq)]
pub struct Opened {
    pub qid: Qid,
    pub iounit: u32,
}

/// The reply with this tag that a frame is.
pub fn reply_of(tag: u16, frame: &[u8]) -> Result<RMsg<'_>, ClientError>
    ensures { IsReplyOf tag frame.now result }
{
    match read_r(frame) {
        None => Err(ClientError::NoMessage),
        Some((other, _)) if other != tag => Err(ClientError::OtherTag),
        Some((_, RMsg::Error { ename })) => Err(ClientError::Refused(Reason::new(ename))),
        Some((_, reply)) => Ok(reply),
    }
}

/// The msize that a reply to a version agrees on: at most the one that was offered, and at least
/// `MSIZE_MIN`, for the same dialect.
pub fn agreed_msize(tag: u16, frame: &[u8], offered: usize) -> Result<usize, ClientError>
    ensures { IsTaken 101 (AgreesOn offered) (OffersMore offered) tag frame.now result }
{
    match reply_of(tag, frame)? {
        RMsg::Version { msize, version } => {
            let msize = msize as usize;
            if version == VERSION && msize >= MSIZE_MIN && msize <= offered {
                Ok(msize)
            } else {
                Err(ClientError::Unasked)
            }
        }
        _ => Err(ClientError::OtherType),
    }
}

/// The root's qid, of a reply to an attach.
pub fn attached_qid(tag: u16, frame: &[u8]) -> Result<Qid, ClientError>
    ensures { IsTaken 105 IsAttached gives_no_more tag frame.now result }
{
    match reply_of(tag, frame)? {
        RMsg::Attach { qid } => Ok(qid),
        _ => Err(ClientError::OtherType),
    }
}

/// The qids that a reply to a walk by so many names gives, no more than names.
pub fn walked_qids(tag: u16, frame: &[u8], names: usize) -> Result<Qids, ClientError>
    ensures { IsTaken 111 (IsWalked names) (ExceedsQids names) tag frame.now result }
{
    match reply_of(tag, frame)? {
        RMsg::Walk { qids } if qids.len() <= names => Ok(qids),
        RMsg::Walk { .. } => Err(ClientError::Unasked),
        _ => Err(ClientError::OtherType),
    }
}

/// The file of a reply to an open.
pub fn opened_file(tag: u16, frame: &[u8]) -> Result<Opened, ClientError>
    ensures { IsTaken 113 IsOpened gives_no_more tag frame.now result }
{
    match reply_of(tag, frame)? {
        RMsg::Open { qid, iounit } => Ok(Opened { qid, iounit }),
        _ => Err(ClientError::OtherType),
    }
}

/// The file of a reply to a create.
pub fn created_file(tag: u16, frame: &[u8]) -> Result<Opened, ClientError>
    ensures { IsTaken 115 IsCreated gives_no_more tag frame.now result }
{
    match reply_of(tag, frame)? {
        RMsg::Create { qid, iounit } => Ok(Opened { qid, iounit }),
        _ => Err(ClientError::OtherType),
    }
}

/// Puts the bytes of a reply to a read, at most `most`, at the front of the buffer, and returns
/// how many these are. What is after them is unchanged; an error changes no byte.
pub fn read_into(
    tag: u16,
    frame: &[u8],
    most: usize,
    buffer: &mut [u8],
) -> Result<usize, ClientError>
    requires { most ≤ length buffer.old }
    ensures taken { IsTaken 117 (IsRead most buffer.old buffer.new) (ExceedsBytes most) tag
        frame.now result }
    ensures err { OnErr result (buffer.new ≡ buffer.old) }
{
    match reply_of(tag, frame)? {
        RMsg::Read { bytes } if bytes.len() <= most => {
            buffer[..bytes.len()].copy_from_slice(bytes);
            Ok(bytes.len())
        }
        RMsg::Read { .. } => Err(ClientError::Unasked),
        _ => Err(ClientError::OtherType),
    }
}

/// The bytes of a reply to a read, at most `most`.
pub fn read_bytes(tag: u16, frame: &[u8], most: usize) -> Result<&[u8], ClientError>
    ensures { IsTaken 117 (λ m bytes. IsReadOf most m bytes.now) (ExceedsBytes most) tag frame.now
        result }
{
    match reply_of(tag, frame)? {
        RMsg::Read { bytes } if bytes.len() <= most => Ok(bytes),
        RMsg::Read { .. } => Err(ClientError::Unasked),
        _ => Err(ClientError::OtherType),
    }
}

/// How many bytes were written, at most `most`, of a reply to a write.
pub fn written_count(tag: u16, frame: &[u8], most: usize) -> Result<usize, ClientError>
    ensures { IsTaken 119 (IsWritten most) (ExceedsCount most) tag frame.now result }
{
    match reply_of(tag, frame)? {
        RMsg::Write { count } if count as usize <= most => Ok(count as usize),
        RMsg::Write { .. } => Err(ClientError::Unasked),
        _ => Err(ClientError::OtherType),
    }
}

/// What was asked of a file: to be read, or to be written.
#[derive(Clone, Copy)]
pub enum Asked {
    Read,
    Write,
}

/// A reply to a read or a write of at most so many bytes, whose bytes or count do not matter. A
/// refusal does not matter either.
pub fn dropped_reply(asked: Asked, tag: u16, frame: &[u8], most: usize) -> Result<(), ClientError>
    ensures { IsDroppedReply asked most tag frame.now result }
{
    match (asked, reply_of(tag, frame)) {
        (Asked::Read, Ok(RMsg::Read { bytes })) if bytes.len() <= most => Ok(()),
        (Asked::Write, Ok(RMsg::Write { count })) if count as usize <= most => Ok(()),
        (Asked::Read, Ok(RMsg::Read { .. })) | (Asked::Write, Ok(RMsg::Write { .. })) => Err(
            ClientError::Unasked,
        ),
        (_, Ok(_)) => Err(ClientError::OtherType),
        (_, Err(ClientError::Refused(_))) => Ok(()),
        (_, Err(error)) => Err(error),
    }
}

/// A reply to a clunk.
pub fn take_clunk(tag: u16, frame: &[u8]) -> Result<(), ClientError>
    ensures { IsTaken 121 (IsEmptyReply Rclunk) gives_no_more tag frame.now result }
{
    match reply_of(tag, frame)? {
        RMsg::Clunk => Ok(()),
        _ => Err(ClientError::OtherType),
    }
}

/// A reply to a remove.
pub fn take_remove(tag: u16, frame: &[u8]) -> Result<(), ClientError>
    ensures { IsTaken 123 (IsEmptyReply Rremove) gives_no_more tag frame.now result }
{
    match reply_of(tag, frame)? {
        RMsg::Remove => Ok(()),
        _ => Err(ClientError::OtherType),
    }
}

/// A reply to a wstat.
pub fn take_wstat(tag: u16, frame: &[u8]) -> Result<(), ClientError>
    ensures { IsTaken 127 (IsEmptyReply Rwstat) gives_no_more tag frame.now result }
{
    match reply_of(tag, frame)? {
        RMsg::Wstat => Ok(()),
        _ => Err(ClientError::OtherType),
    }
}
