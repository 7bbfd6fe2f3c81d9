//! Requests from bytes: a function for each body with fields, and the frame around it.

ghost use Rattle.std.specs.Prelude.{◌≡◌, ℕ, IfSome, IfNone};
ghost use Rattle.p9_wire.specs.Message.{TMessage, t_view};
ghost use Rattle.p9_wire.specs.Spelling.{TSpells};
ghost use Rattle.p9_wire.specs.FieldReading.{Gives};
ghost use Rattle.p9_wire.specs.Reading.{t_version_at, t_auth_at, t_attach_at, t_flush_at};
ghost use Rattle.p9_wire.specs.Reading.{t_walk_at, t_open_at, t_create_at, t_read_at, t_write_at};
ghost use Rattle.p9_wire.specs.Reading.{t_clunk_at, t_remove_at, t_stat_at, t_wstat_at, t_body_at};
ghost use Rattle.p9_wire.specs.Reading.{t_message_of};

use crate::constants::{
    TATTACH, TAUTH, TCLUNK, TCREATE, TFLUSH, TOPEN, TREAD, TREMOVE, TSTAT, TVERSION, TWALK, TWRITE,
    TWSTAT,
};
use crate::message::TMsg;
use p9_fields::{
    take_counted, take_end, take_header, take_names, take_sized_stat, take_text, take_u8, take_u16,
    take_u32, take_u64,
};

#[tactic(auto, unfolding(crate::specs::Reading::t_version_at))]
fn version(body: &[u8]) -> Option<(TMsg<'_>, &[u8])>
    ensures { Gives (λ x. (t_view x.0, x.1.now)) result (t_version_at body.now) }
{
    let (msize, rest) = take_u32(body)?;
    let (version, rest) = take_text(rest)?;
    Some((TMsg::Version { msize, version }, rest))
}

#[tactic(auto, unfolding(crate::specs::Reading::t_auth_at))]
fn auth(body: &[u8]) -> Option<(TMsg<'_>, &[u8])>
    ensures { Gives (λ x. (t_view x.0, x.1.now)) result (t_auth_at body.now) }
{
    let (afid, rest) = take_u32(body)?;
    let (uname, rest) = take_text(rest)?;
    let (aname, rest) = take_text(rest)?;
    Some((TMsg::Auth { afid, uname, aname }, rest))
}

#[tactic(auto, unfolding(crate::specs::Reading::t_attach_at))]
fn attach(body: &[u8]) -> Option<(TMsg<'_>, &[u8])>
    ensures { Gives (λ x. (t_view x.0, x.1.now)) result (t_attach_at body.now) }
{
    let (fid, rest) = take_u32(body)?;
    let (afid, rest) = take_u32(rest)?;
    let (uname, rest) = take_text(rest)?;
    let (aname, rest) = take_text(rest)?;
    Some((
        TMsg::Attach {
            fid,
            afid,
            uname,
            aname,
        },
        rest,
    ))
}

#[tactic(auto, unfolding(crate::specs::Reading::t_flush_at))]
fn flush(body: &[u8]) -> Option<(TMsg<'_>, &[u8])>
    ensures { Gives (λ x. (t_view x.0, x.1.now)) result (t_flush_at body.now) }
{
    let (oldtag, rest) = take_u16(body)?;
    Some((TMsg::Flush { oldtag }, rest))
}

#[tactic(auto, unfolding(crate::specs::Reading::t_walk_at))]
fn walk(body: &[u8]) -> Option<(TMsg<'_>, &[u8])>
    ensures { Gives (λ x. (t_view x.0, x.1.now)) result (t_walk_at body.now) }
{
    let (fid, rest) = take_u32(body)?;
    let (newfid, rest) = take_u32(rest)?;
    let (names, rest) = take_names(rest)?;
    Some((TMsg::Walk { fid, newfid, names }, rest))
}

#[tactic(auto, unfolding(crate::specs::Reading::t_open_at))]
fn open(body: &[u8]) -> Option<(TMsg<'_>, &[u8])>
    ensures { Gives (λ x. (t_view x.0, x.1.now)) result (t_open_at body.now) }
{
    let (fid, rest) = take_u32(body)?;
    let (mode, rest) = take_u8(rest)?;
    Some((TMsg::Open { fid, mode }, rest))
}

#[tactic(auto, unfolding(crate::specs::Reading::t_create_at))]
fn create(body: &[u8]) -> Option<(TMsg<'_>, &[u8])>
    ensures { Gives (λ x. (t_view x.0, x.1.now)) result (t_create_at body.now) }
{
    let (fid, rest) = take_u32(body)?;
    let (name, rest) = take_text(rest)?;
    let (perm, rest) = take_u32(rest)?;
    let (mode, rest) = take_u8(rest)?;
    Some((
        TMsg::Create {
            fid,
            name,
            perm,
            mode,
        },
        rest,
    ))
}

#[tactic(auto, unfolding(crate::specs::Reading::t_read_at))]
fn read(body: &[u8]) -> Option<(TMsg<'_>, &[u8])>
    ensures { Gives (λ x. (t_view x.0, x.1.now)) result (t_read_at body.now) }
{
    let (fid, rest) = take_u32(body)?;
    let (offset, rest) = take_u64(rest)?;
    let (count, rest) = take_u32(rest)?;
    Some((TMsg::Read { fid, offset, count }, rest))
}

#[tactic(auto, unfolding(crate::specs::Reading::t_write_at))]
fn write(body: &[u8]) -> Option<(TMsg<'_>, &[u8])>
    ensures { Gives (λ x. (t_view x.0, x.1.now)) result (t_write_at body.now) }
{
    let (fid, rest) = take_u32(body)?;
    let (offset, rest) = take_u64(rest)?;
    let (bytes, rest) = take_counted(rest)?;
    Some((TMsg::Write { fid, offset, bytes }, rest))
}

#[tactic(auto, unfolding(crate::specs::Reading::t_clunk_at))]
fn clunk(body: &[u8]) -> Option<(TMsg<'_>, &[u8])>
    ensures { Gives (λ x. (t_view x.0, x.1.now)) result (t_clunk_at body.now) }
{
    let (fid, rest) = take_u32(body)?;
    Some((TMsg::Clunk { fid }, rest))
}

#[tactic(auto, unfolding(crate::specs::Reading::t_remove_at))]
fn remove(body: &[u8]) -> Option<(TMsg<'_>, &[u8])>
    ensures { Gives (λ x. (t_view x.0, x.1.now)) result (t_remove_at body.now) }
{
    let (fid, rest) = take_u32(body)?;
    Some((TMsg::Remove { fid }, rest))
}

#[tactic(auto, unfolding(crate::specs::Reading::t_stat_at))]
fn stat(body: &[u8]) -> Option<(TMsg<'_>, &[u8])>
    ensures { Gives (λ x. (t_view x.0, x.1.now)) result (t_stat_at body.now) }
{
    let (fid, rest) = take_u32(body)?;
    Some((TMsg::Stat { fid }, rest))
}

#[tactic(auto, unfolding(crate::specs::Reading::t_wstat_at))]
fn wstat(body: &[u8]) -> Option<(TMsg<'_>, &[u8])>
    ensures { Gives (λ x. (t_view x.0, x.1.now)) result (t_wstat_at body.now) }
{
    let (fid, rest) = take_u32(body)?;
    let (stat, rest) = take_sized_stat(rest)?;
    Some((TMsg::Wstat { fid, stat }, rest))
}

/// The body of a message of this type, and the bytes after it.
#[tactic(auto, unfolding(crate::specs::Reading::t_body_at))]
fn body_of(kind: u8, body: &[u8]) -> Option<(TMsg<'_>, &[u8])>
    ensures { Gives (λ x. (t_view x.0, x.1.now)) result (t_body_at kind body.now) }
{
    match kind {
        TVERSION => version(body),
        TAUTH => auth(body),
        TATTACH => attach(body),
        TFLUSH => flush(body),
        TWALK => walk(body),
        TOPEN => open(body),
        TCREATE => create(body),
        TREAD => read(body),
        TWRITE => write(body),
        TCLUNK => clunk(body),
        TREMOVE => remove(body),
        TSTAT => stat(body),
        TWSTAT => wstat(body),
        _ => None,
    }
}

/// The request that takes up all of these bytes, with its tag.
#[tactic(auto, unfolding(crate::specs::Reading::t_message_of))]
fn whole(bytes: &[u8]) -> Option<(u16, TMsg<'_>)>
    ensures { Gives (λ x. (x.0, t_view x.1)) result (t_message_of bytes.now) }
{
    let (kind, tag, body) = take_header(bytes)?;
    let (message, rest) = body_of(kind, body)?;
    take_end(rest)?;
    Some((tag, message))
}

/// The request that these bytes are, with its tag, as intro(5). None where no request has all of
/// these bytes as its spelling: a size that isn't their number, a type that no request has, a field
/// that is cut short, a text that is not UTF-8 or has a NUL, more than sixteen names, a stat whose
/// length isn't its size and two, or bytes after the body.
pub fn read_t<'a>(bytes: &'a [u8]) -> Option<(u16, TMsg<'a>)>
    // What is read has this spelling.
    ensures found { IfSome result (λ x. TSpells bytes.now x.0 (t_view x.1)) }
    // What has this spelling is read.
    ensures none { IfNone result ((tag : ℕ) (m : TMessage) → ¬ TSpells bytes.now tag m) }
    ensures same { Gives (λ x. (x.0, t_view x.1)) result (t_message_of bytes.now) }
{
    whole(bytes)
}
