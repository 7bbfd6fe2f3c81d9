//! The answer to a frame of one session among all.

ghost use Rattle.std.specs.Prelude.{◌≡◌, ◌≤◌, List, IsSome, IfSome, drop, false, length};
ghost use Rattle.std.specs.Option.{option_map_or};
ghost use Rattle.p9_wire.specs.Message.{t_view};
ghost use Rattle.p9_wire.specs.Spelling.{read_header};
ghost use Rattle.p9_walks.specs.Held.{SessionFits, SessionsFit, sessions_in};
ghost use Rattle.p9_walks.specs.Answers.{replied};
ghost use Rattle.p9_requests.specs.Answers.{AnswersAmong, CanWrite, frame_among, reply_view};
ghost use Rattle.p9_requests.specs.Room.{IsDataWithin};
ghost use Rattle.p9_requests.specs.Taken.{wants_taken_file};
ghost use Rattle.p9_step.specs.Laws.{reply_max};
ghost use Rattle.p9_step.specs.Sound.{IsSession};
ghost use Rattle.p9_step.specs.State.{SessionRow, iounit_of, session_at};
ghost use Rattle.p9_step.specs.Open.{is_in_use};
ghost use Rattle.p9_step.specs.Memory.{frame_may_fail};

use crate::frame::request_of;
use crate::message::message;
use crate::open::{exclusive_file_of, is_in_use};
use crate::reply::Reply;
use p9_base::{Fault, NodeRef};
use p9_tree::{Forest, Tree};
use p9_walks::session::Session;
use p9_walks::setting::Setting;
use p9_wire::{READ_HEADER, TMsg};
use std::collections::BTreeMap;

/// Answers a frame of the session of this name. What a read gives is put after the first
/// [`READ_HEADER`] bytes of the reply.
///
/// A frame that is no request is refused as by [`request_of`], a request by the first test of its
/// own function that fails. At an `Err` the forest and all sessions are unchanged.
pub fn answer<T: Tree>(
    setting: &Setting<T::Alloc>,
    forest: &mut Forest<T>,
    sessions: &mut BTreeMap<u32, Session<T::Alloc>, T::Alloc>,
    name: u32,
    clock: u32,
    frame: &[u8],
    reply: &mut [u8],
) -> Result<Reply, Fault>
    requires channels { SessionsFit setting.now.table sessions.old.entries }
    requires live { IsSome (session_at name (sessions_in sessions.old.entries)) }
    requires sound { IfSome (session_at name (sessions_in sessions.old.entries))
        (IsSession setting.now forest.old) }
    requires room { IfSome (session_at name (sessions_in sessions.old.entries)) (λ session. reply_max session
        ≤ length reply.old) }
    ensures channels { SessionsFit setting.now.table sessions.new.entries }
    ensures reply { CanWrite result }
    ensures data { IfSome (session_at name (sessions_in sessions.old.entries)) (λ session. IsDataWithin
        (iounit_of session) result) }
    ensures len { length reply.new ≡ length reply.old }
    ensures answer { let answer = frame_among setting.now forest.old
        (sessions_in sessions.old.entries) name clock frame.now in
        AnswersAmong name answer (frame_may_fail frame.now answer) forest.old forest.new
        (sessions_in sessions.old.entries) (sessions_in sessions.new.entries)
        (replied (reply_view forest.new (drop read_header reply.new)) result) }
{
    let (_, buffer) = reply.split_at_mut(READ_HEADER);
    let session = sessions.get_mut(&name).unwrap();
    let request = request_of(session, frame)?;
    let Some(at) = exclusive_file_wanted(setting, forest, session, &request) else {
        return message(setting, forest, session, false, clock, &request, buffer);
    };
    let taken = is_in_use(&setting.table, at, sessions);
    let session = sessions.get_mut(&name).unwrap();
    message(setting, forest, session, taken, clock, &request, buffer)
}

// The file that the request asks to open, if it is exclusive.
fn exclusive_file_wanted<T: Tree>(
    setting: &Setting<T::Alloc>,
    forest: &Forest<T>,
    session: &Session<T::Alloc>,
    request: &TMsg<'_>,
) -> Option<NodeRef>
    requires { SessionFits setting.now.table session.now }
    ensures { (sessions : List SessionRow) → wants_taken_file setting.now forest.now sessions
        session.now.session (t_view request.now)
        ≡ option_map_or (λ at. is_in_use setting.now.table at sessions) result false }
{
    match request {
        TMsg::Open { fid, .. } => exclusive_file_of(setting, forest, session, *fid),
        _ => None,
    }
}
