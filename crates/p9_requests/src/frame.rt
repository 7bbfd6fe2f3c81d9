//! Frames: the request in one, and the reply to it.

ghost use Rattle.std.specs.Prelude.{◌≡◌, ◌≤◌, ◌+◌, length, take, drop};
ghost use Rattle.p9_base.specs.Fault.{text_of};
ghost use Rattle.p9_wire.specs.Frame.{header};
ghost use Rattle.p9_wire.specs.Message.{Rerror};
ghost use Rattle.p9_wire.specs.Spelling.{r_len, read_header};
ghost use Rattle.p9_wire.specs.Reply.{r_spelling};
ghost use Rattle.p9_step.specs.Request.{request_of, tag_of};
ghost use Rattle.p9_walks.specs.Answers.{replied};
ghost use Rattle.p9_requests.specs.Answers.{CanWrite, message_of, reply_view, request_view};
ghost use Rattle.p9_walks.specs.Answers.{stat_reply};
ghost use Rattle.p9_requests.specs.Room.{IsRoom};

use crate::reply::Reply;
use byteorder::{ByteOrder, LittleEndian};
use p9_base::{Fault, NodeRef};
use p9_tree::{Forest, Tree};
use p9_walks::qid::stat_of;
use p9_walks::session::Session;
use p9_wire::{RMsg, TMsg, finish_read, read_t, write_r};
use std::alloc::Allocator;

// Where the tag is in a frame: after its size and its type.
const TAG_START: usize = 5;

/// The request of a frame: a frame that is longer than the session's msize, or no request, is
/// [`Fault::Malformed`]; before a version, any other request is [`Fault::VersionNotSet`].
pub fn request_of<'a, A: Allocator + Copy>(
    session: &Session<A>,
    frame: &'a [u8],
) -> Result<TMsg<'a>, Fault>
    ensures { request_view result ≡ request_of session.now.session frame.now }
{
    if session
        .msize
        .is_some_and(|msize| frame.len() > msize as usize)
    {
        return Err(Fault::Malformed);
    }
    let Some((_, request)) = read_t(frame) else {
        return Err(Fault::Malformed);
    };
    if session.msize.is_none() && !matches!(request, TMsg::Version { .. }) {
        return Err(Fault::VersionNotSet);
    }
    Ok(request)
}

/// The tag of a frame, also where it is no request.
pub fn tag_of(frame: &[u8]) -> u16
    requires { header ≤ length frame.now }
    ensures { result ≡ tag_of frame.now }
{
    LittleEndian::read_u16(&frame[TAG_START..])
}

/// Writes the reply to a frame with this tag at the front of the buffer, also where it is a
/// refusal, and returns its length. The buffer has room for it.
pub fn write_reply<T: Tree>(
    forest: &Forest<T>,
    answered: &Result<Reply, Fault>,
    tag: u16,
    out: &mut [u8],
) -> usize
    requires reply { CanWrite answered.now }
    requires room { IsRoom forest.now (length out.old) answered.now }
    ensures bytes { take result out.new ≡ r_spelling tag (message_of (replied (reply_view
        forest.now (drop read_header out.old)) answered.now)) }
    ensures within { result ≤ length out.old }
{
    match answered {
        Ok(Reply::Message(reply)) => write_r(reply, tag, out),
        Ok(Reply::Data(count)) => finish_read(tag, *count, out),
        Ok(Reply::StatOf(at)) => write_stat_of(forest, *at, tag, out),
        Err(fault) => write_fault(*fault, tag, out),
    }
}

// Writes the refusal.
fn write_fault(fault: Fault, tag: u16, out: &mut [u8]) -> usize
    requires { header + r_len (Rerror (text_of fault)) ≤ length out.old }
    ensures bytes { take result out.new ≡ r_spelling tag (Rerror (text_of fault)) }
    ensures within { result ≤ length out.old }
{
    write_r(
        &RMsg::Error {
            ename: fault.text(),
        },
        tag,
        out,
    )
}

// Writes the stat of a node, or, where there is none, that it is gone.
fn write_stat_of<T: Tree>(forest: &Forest<T>, at: NodeRef, tag: u16, out: &mut [u8]) -> usize
    requires room { header + r_len (stat_reply forest.now at) ≤ length out.old }
    ensures bytes { take result out.new ≡ r_spelling tag (stat_reply forest.now at) }
    ensures within { result ≤ length out.old }
{
    let Some(file) = forest.node(at) else {
        return write_fault(Fault::PhaseError, tag, out);
    };
    forest.well_formed();
    let stat = stat_of(at, file);
    write_r(&RMsg::Stat { stat }, tag, out)
}
