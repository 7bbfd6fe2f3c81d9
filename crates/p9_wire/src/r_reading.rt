//! Replies from bytes: a function for each body with fields, and the frame around it.

ghost use Rattle.std.specs.Prelude.{◌≡◌, ℕ, IfSome, IfNone};
ghost use Rattle.p9_wire.specs.Message.{RMessage, r_view};
ghost use Rattle.p9_wire.specs.Spelling.{RSpells};
ghost use Rattle.p9_wire.specs.FieldReading.{Gives};
ghost use Rattle.p9_wire.specs.Reading.{r_version_at, r_attach_at, r_error_at, r_walk_at};
ghost use Rattle.p9_wire.specs.Reading.{r_open_at, r_create_at, r_read_at, r_write_at, r_stat_at};
ghost use Rattle.p9_wire.specs.Reading.{r_body_at, r_message_of};

use crate::constants::{
    RATTACH, RCLUNK, RCREATE, RERROR, RFLUSH, ROPEN, RREAD, RREMOVE, RSTAT, RVERSION, RWALK,
    RWRITE, RWSTAT,
};
use crate::message::RMsg;
use p9_fields::{
    take_counted, take_end, take_header, take_qid, take_qids, take_sized_stat, take_text, take_u32,
};

#[tactic(auto, unfolding(crate::specs::Reading::r_version_at))]
fn version(body: &[u8]) -> Option<(RMsg<'_>, &[u8])>
    ensures { Gives (λ x. (r_view x.0, x.1.now)) result (r_version_at body.now) }
{
    let (msize, rest) = take_u32(body)?;
    let (version, rest) = take_text(rest)?;
    Some((RMsg::Version { msize, version }, rest))
}

#[tactic(auto, unfolding(crate::specs::Reading::r_attach_at))]
fn attach(body: &[u8]) -> Option<(RMsg<'_>, &[u8])>
    ensures { Gives (λ x. (r_view x.0, x.1.now)) result (r_attach_at body.now) }
{
    let (qid, rest) = take_qid(body)?;
    Some((RMsg::Attach { qid }, rest))
}

#[tactic(auto, unfolding(crate::specs::Reading::r_error_at))]
fn error(body: &[u8]) -> Option<(RMsg<'_>, &[u8])>
    ensures { Gives (λ x. (r_view x.0, x.1.now)) result (r_error_at body.now) }
{
    let (ename, rest) = take_text(body)?;
    Some((RMsg::Error { ename }, rest))
}

#[tactic(auto, unfolding(crate::specs::Reading::r_walk_at))]
fn walk(body: &[u8]) -> Option<(RMsg<'_>, &[u8])>
    ensures { Gives (λ x. (r_view x.0, x.1.now)) result (r_walk_at body.now) }
{
    let (qids, rest) = take_qids(body)?;
    Some((RMsg::Walk { qids }, rest))
}

#[tactic(auto, unfolding(crate::specs::Reading::r_open_at))]
fn open(body: &[u8]) -> Option<(RMsg<'_>, &[u8])>
    ensures { Gives (λ x. (r_view x.0, x.1.now)) result (r_open_at body.now) }
{
    let (qid, rest) = take_qid(body)?;
    let (iounit, rest) = take_u32(rest)?;
    Some((RMsg::Open { qid, iounit }, rest))
}

#[tactic(auto, unfolding(crate::specs::Reading::r_create_at))]
fn create(body: &[u8]) -> Option<(RMsg<'_>, &[u8])>
    ensures { Gives (λ x. (r_view x.0, x.1.now)) result (r_create_at body.now) }
{
    let (qid, rest) = take_qid(body)?;
    let (iounit, rest) = take_u32(rest)?;
    Some((RMsg::Create { qid, iounit }, rest))
}

#[tactic(auto, unfolding(crate::specs::Reading::r_read_at))]
fn read(body: &[u8]) -> Option<(RMsg<'_>, &[u8])>
    ensures { Gives (λ x. (r_view x.0, x.1.now)) result (r_read_at body.now) }
{
    let (bytes, rest) = take_counted(body)?;
    Some((RMsg::Read { bytes }, rest))
}

#[tactic(auto, unfolding(crate::specs::Reading::r_write_at))]
fn write(body: &[u8]) -> Option<(RMsg<'_>, &[u8])>
    ensures { Gives (λ x. (r_view x.0, x.1.now)) result (r_write_at body.now) }
{
    let (count, rest) = take_u32(body)?;
    Some((RMsg::Write { count }, rest))
}

#[tactic(auto, unfolding(crate::specs::Reading::r_stat_at))]
fn stat(body: &[u8]) -> Option<(RMsg<'_>, &[u8])>
    ensures { Gives (λ x. (r_view x.0, x.1.now)) result (r_stat_at body.now) }
{
    let (stat, rest) = take_sized_stat(body)?;
    Some((RMsg::Stat { stat }, rest))
}

/// The body of a message of this type, and the bytes after it.
#[tactic(auto, unfolding(crate::specs::Reading::r_body_at))]
fn body_of(kind: u8, body: &[u8]) -> Option<(RMsg<'_>, &[u8])>
    ensures { Gives (λ x. (r_view x.0, x.1.now)) result (r_body_at kind body.now) }
{
    match kind {
        RVERSION => version(body),
        RATTACH => attach(body),
        RERROR => error(body),
        RFLUSH => Some((RMsg::Flush, body)),
        RWALK => walk(body),
        ROPEN => open(body),
        RCREATE => create(body),
        RREAD => read(body),
        RWRITE => write(body),
        RCLUNK => Some((RMsg::Clunk, body)),
        RREMOVE => Some((RMsg::Remove, body)),
        RSTAT => stat(body),
        RWSTAT => Some((RMsg::Wstat, body)),
        _ => None,
    }
}

/// The reply that takes up all of these bytes, with its tag.
#[tactic(auto, unfolding(crate::specs::Reading::r_message_of))]
fn whole(bytes: &[u8]) -> Option<(u16, RMsg<'_>)>
    ensures { Gives (λ x. (x.0, r_view x.1)) result (r_message_of bytes.now) }
{
    let (kind, tag, body) = take_header(bytes)?;
    let (message, rest) = body_of(kind, body)?;
    take_end(rest)?;
    Some((tag, message))
}

/// The reply that these bytes are, with its tag, as intro(5). None where no reply has all of these
/// bytes as its spelling, as for `read_t`. An Rauth is never sent, and none.
pub fn read_r<'a>(bytes: &'a [u8]) -> Option<(u16, RMsg<'a>)>
    // What is read has this spelling.
    ensures found { IfSome result (λ x. RSpells bytes.now x.0 (r_view x.1)) }
    // What has this spelling is read.
    ensures none { IfNone result ((tag : ℕ) (m : RMessage) → ¬ RSpells bytes.now tag m) }
    ensures same { Gives (λ x. (x.0, r_view x.1)) result (r_message_of bytes.now) }
{
    whole(bytes)
}
