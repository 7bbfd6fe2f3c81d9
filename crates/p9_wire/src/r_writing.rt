//! Replies into bytes.

ghost use Rattle.std.specs.Prelude.{◌≡◌, ◌≤◌, ◌<◌, ◌^◌, take, drop, ◌+◌, length};
ghost use Rattle.p9_wire.specs.Message.{Rread, r_view};
ghost use Rattle.p9_wire.specs.Spelling.{r_len, read_header, RFits};
ghost use Rattle.p9_wire.specs.Reply.{r_type, r_body, r_spelling};
ghost use Rattle.p9_wire.specs.Writing.{Puts, Writes};

use crate::constants::{
    HEADER, RATTACH, RCLUNK, RCREATE, RERROR, RFLUSH, ROPEN, RREAD, RREMOVE, RSTAT, RVERSION,
    RWALK, RWRITE, RWSTAT,
};
use crate::message::RMsg;
use crate::put::{put_counted, put_header, put_qid, put_qids, put_sized_stat, put_text, put_u32};

/// The number of the message's type.
fn kind_of(message: &RMsg<'_>) -> u8
    ensures { result ≡ r_type (r_view message.now) }
{
    match message {
        RMsg::Version { .. } => RVERSION,
        RMsg::Attach { .. } => RATTACH,
        RMsg::Error { .. } => RERROR,
        RMsg::Flush => RFLUSH,
        RMsg::Walk { .. } => RWALK,
        RMsg::Open { .. } => ROPEN,
        RMsg::Create { .. } => RCREATE,
        RMsg::Read { .. } => RREAD,
        RMsg::Write { .. } => RWRITE,
        RMsg::Clunk => RCLUNK,
        RMsg::Remove => RREMOVE,
        RMsg::Stat { .. } => RSTAT,
        RMsg::Wstat => RWSTAT,
    }
}

/// Puts the body after the bytes of the header, and returns the index after it.
fn put_body(message: &RMsg<'_>, out: &mut [u8]) -> usize
    requires fits { RFits (r_view message.now) }
    requires room { 7 + r_len (r_view message.now) ≤ length out.old }
    ensures { Puts (r_body (r_view message.now)) 7 result out.old out.new }
{
    match message {
        RMsg::Version { msize, version } => {
            let at = put_u32(out, HEADER, *msize);
            put_text(out, at, version)
        }
        RMsg::Attach { qid } => put_qid(out, HEADER, *qid),
        RMsg::Error { ename } => put_text(out, HEADER, ename),
        RMsg::Flush => HEADER,
        RMsg::Walk { qids } => put_qids(out, HEADER, qids),
        RMsg::Open { qid, iounit } => {
            let at = put_qid(out, HEADER, *qid);
            put_u32(out, at, *iounit)
        }
        RMsg::Create { qid, iounit } => {
            let at = put_qid(out, HEADER, *qid);
            put_u32(out, at, *iounit)
        }
        RMsg::Read { bytes } => put_counted(out, HEADER, bytes),
        RMsg::Write { count } => put_u32(out, HEADER, *count),
        RMsg::Clunk => HEADER,
        RMsg::Remove => HEADER,
        RMsg::Stat { stat } => put_sized_stat(out, HEADER, stat),
        RMsg::Wstat => HEADER,
    }
}

/// Writes a reply with its tag at the front of the buffer, and returns its length. What is
/// after it stays. The buffer has room for it, and it has a spelling: `size` and `fits` of `RMsg`
/// tell both.
pub fn write_r(message: &RMsg<'_>, tag: u16, out: &mut [u8]) -> usize
    requires fits { RFits (r_view message.now) }
    requires room { 7 + r_len (r_view message.now) ≤ length out.old }
    ensures len { result ≡ 7 + r_len (r_view message.now) }
    ensures bytes { Writes (r_spelling tag (r_view message.now)) result out.old out.new }
{
    let end = put_body(message, out);
    put_header(out, end as u32, kind_of(message), tag);
    end
}

/// Makes the Rread of the `count` bytes that are after the first [`crate::READ_HEADER`] bytes of
/// the buffer, where its header and count belong, and returns its length. The bytes and what is
/// after them stay.
pub fn finish_read(tag: u16, count: u32, out: &mut [u8]) -> usize
    requires size { read_header + count < 2 ^ 32 }
    requires room { read_header + count ≤ length out.old }
    ensures len { result ≡ read_header + count }
    ensures bytes { let bytes = take count (drop read_header out.old) in
        Writes (r_spelling tag (Rread bytes)) result out.old out.new }
{
    let at = put_u32(out, HEADER, count);
    let end = at + count as usize;
    put_header(out, end as u32, RREAD, tag);
    end
}
