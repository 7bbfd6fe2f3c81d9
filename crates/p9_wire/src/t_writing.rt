//! Requests into bytes.

ghost use Rattle.std.specs.Prelude.{◌≡◌, ◌≤◌, ◌+◌, length};
ghost use Rattle.p9_wire.specs.Message.{Tauth, Tattach, Twalk, Tcreate, Tread, Twrite, t_view};
ghost use Rattle.p9_wire.specs.Spelling.{t_type, t_body, t_len, TFits, t_spelling};
ghost use Rattle.p9_wire.specs.Writing.{Puts, Writes};

use crate::constants::{
    HEADER, TATTACH, TAUTH, TCLUNK, TCREATE, TFLUSH, TOPEN, TREAD, TREMOVE, TSTAT, TVERSION, TWALK,
    TWRITE, TWSTAT,
};
use crate::message::TMsg;
use crate::put::{
    put_counted, put_header, put_names, put_sized_stat, put_text, put_u8, put_u16, put_u32, put_u64,
};
use p9_fields::Names;

/// The number of the message's type.
fn kind_of(message: &TMsg<'_>) -> u8
    ensures { result ≡ t_type (t_view message.now) }
{
    match message {
        TMsg::Version { .. } => TVERSION,
        TMsg::Auth { .. } => TAUTH,
        TMsg::Attach { .. } => TATTACH,
        TMsg::Flush { .. } => TFLUSH,
        TMsg::Walk { .. } => TWALK,
        TMsg::Open { .. } => TOPEN,
        TMsg::Create { .. } => TCREATE,
        TMsg::Read { .. } => TREAD,
        TMsg::Write { .. } => TWRITE,
        TMsg::Clunk { .. } => TCLUNK,
        TMsg::Remove { .. } => TREMOVE,
        TMsg::Stat { .. } => TSTAT,
        TMsg::Wstat { .. } => TWSTAT,
    }
}

/// Puts the body of a Tauth as `put_body` does.
fn put_auth(out: &mut [u8], afid: u32, uname: &str, aname: &str) -> usize
    requires fits { TFits (Tauth afid uname.now aname.now) }
    requires room { 7 + t_len (Tauth afid uname.now aname.now) ≤ length out.old }
    ensures { Puts (t_body (Tauth afid uname.now aname.now)) 7 result out.old out.new }
{
    let at = put_u32(out, HEADER, afid);
    let at = put_text(out, at, uname);
    put_text(out, at, aname)
}

/// Puts the body of a Tattach as `put_body` does.
fn put_attach(out: &mut [u8], fid: u32, afid: u32, uname: &str, aname: &str) -> usize
    requires fits { TFits (Tattach fid afid uname.now aname.now) }
    requires room { 7 + t_len (Tattach fid afid uname.now aname.now) ≤ length out.old }
    ensures { Puts (t_body (Tattach fid afid uname.now aname.now)) 7 result out.old out.new }
{
    let at = put_u32(out, HEADER, fid);
    let at = put_u32(out, at, afid);
    let at = put_text(out, at, uname);
    put_text(out, at, aname)
}

/// Puts the body of a Twalk as `put_body` does.
fn put_walk(out: &mut [u8], fid: u32, newfid: u32, names: &Names<'_>) -> usize
    requires fits { TFits (Twalk fid newfid names.now) }
    requires room { 7 + t_len (Twalk fid newfid names.now) ≤ length out.old }
    ensures { Puts (t_body (Twalk fid newfid names.now)) 7 result out.old out.new }
{
    let at = put_u32(out, HEADER, fid);
    let at = put_u32(out, at, newfid);
    put_names(out, at, names)
}

/// Puts the body of a Tcreate as `put_body` does.
fn put_create(out: &mut [u8], fid: u32, name: &str, perm: u32, mode: u8) -> usize
    requires fits { TFits (Tcreate fid name.now perm mode) }
    requires room { 7 + t_len (Tcreate fid name.now perm mode) ≤ length out.old }
    ensures { Puts (t_body (Tcreate fid name.now perm mode)) 7 result out.old out.new }
{
    let at = put_u32(out, HEADER, fid);
    let at = put_text(out, at, name);
    let at = put_u32(out, at, perm);
    put_u8(out, at, mode)
}

/// Puts the body of a Tread as `put_body` does.
fn put_read(out: &mut [u8], fid: u32, offset: u64, count: u32) -> usize
    requires { 7 + t_len (Tread fid offset count) ≤ length out.old }
    ensures { Puts (t_body (Tread fid offset count)) 7 result out.old out.new }
{
    let at = put_u32(out, HEADER, fid);
    let at = put_u64(out, at, offset);
    put_u32(out, at, count)
}

/// Puts the body of a Twrite as `put_body` does.
fn put_write(out: &mut [u8], fid: u32, offset: u64, bytes: &[u8]) -> usize
    requires fits { TFits (Twrite fid offset bytes.now) }
    requires room { 7 + t_len (Twrite fid offset bytes.now) ≤ length out.old }
    ensures { Puts (t_body (Twrite fid offset bytes.now)) 7 result out.old out.new }
{
    let at = put_u32(out, HEADER, fid);
    let at = put_u64(out, at, offset);
    put_counted(out, at, bytes)
}

/// Puts the body after the bytes of the header, and returns the index after it.
fn put_body(message: &TMsg<'_>, out: &mut [u8]) -> usize
    requires fits { TFits (t_view message.now) }
    requires room { 7 + t_len (t_view message.now) ≤ length out.old }
    ensures { Puts (t_body (t_view message.now)) 7 result out.old out.new }
{
    match message {
        TMsg::Version { msize, version } => {
            let at = put_u32(out, HEADER, *msize);
            put_text(out, at, version)
        }
        TMsg::Auth { afid, uname, aname } => put_auth(out, *afid, uname, aname),
        TMsg::Attach {
            fid,
            afid,
            uname,
            aname,
        } => put_attach(out, *fid, *afid, uname, aname),
        TMsg::Flush { oldtag } => put_u16(out, HEADER, *oldtag),
        TMsg::Walk { fid, newfid, names } => put_walk(out, *fid, *newfid, names),
        TMsg::Open { fid, mode } => {
            let at = put_u32(out, HEADER, *fid);
            put_u8(out, at, *mode)
        }
        TMsg::Create {
            fid,
            name,
            perm,
            mode,
        } => put_create(out, *fid, name, *perm, *mode),
        TMsg::Read { fid, offset, count } => put_read(out, *fid, *offset, *count),
        TMsg::Write { fid, offset, bytes } => put_write(out, *fid, *offset, bytes),
        TMsg::Clunk { fid } => put_u32(out, HEADER, *fid),
        TMsg::Remove { fid } => put_u32(out, HEADER, *fid),
        TMsg::Stat { fid } => put_u32(out, HEADER, *fid),
        TMsg::Wstat { fid, stat } => {
            let at = put_u32(out, HEADER, *fid);
            put_sized_stat(out, at, stat)
        }
    }
}

/// Writes a request with its tag at the front of the buffer, and returns its length. What is
/// after it stays. The buffer has room for it, and it has a spelling: `size` and `fits` of `TMsg`
/// tell both.
pub fn write_t(message: &TMsg<'_>, tag: u16, out: &mut [u8]) -> usize
    requires fits { TFits (t_view message.now) }
    requires room { 7 + t_len (t_view message.now) ≤ length out.old }
    ensures len { result ≡ 7 + t_len (t_view message.now) }
    ensures bytes { Writes (t_spelling tag (t_view message.now)) result out.old out.new }
{
    let end = put_body(message, out);
    put_header(out, end as u32, kind_of(message), tag);
    end
}
