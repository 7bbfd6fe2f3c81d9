//! The answer to a request, message by message.

ghost use Rattle.std.specs.Prelude.{◌≡◌, ◌≤◌, ◌+◌, List, length};
ghost use Rattle.p9_wire.specs.Frame.{msize_max};
ghost use Rattle.p9_wire.specs.Message.{t_view};
ghost use Rattle.p9_walks.specs.Held.{SessionFits};
ghost use Rattle.p9_walks.specs.Answers.{Answers, replied};
ghost use Rattle.p9_requests.specs.Answers.{CanWrite, reply_view};
ghost use Rattle.p9_requests.specs.Room.{IsDataWithin};
ghost use Rattle.p9_requests.specs.Taken.{wants_taken_file};
ghost use Rattle.p9_step.specs.Sound.{AreWellOpen};
ghost use Rattle.p9_step.specs.State.{SessionRow, io_header, iounit_of};
ghost use Rattle.p9_step.specs.Memory.{may_run_out};
ghost use Rattle.p9_step.specs.Step.{message_answer};

use crate::attach::attach;
use crate::create::{NewFile, create};
use crate::open::open;
use crate::reply::Reply;
use crate::version::version;
use crate::write::write;
use crate::wstat::wstat;
use p9_base::Fault;
use p9_tree::{Forest, Tree};
use p9_walks::clunk::clunk;
use p9_walks::read::{ReadRequest, read};
use p9_walks::remove::remove;
use p9_walks::session::Session;
use p9_walks::setting::Setting;
use p9_walks::stat::stat;
use p9_walks::walk::walk;
use p9_wire::{RMsg, TMsg};

/// Answers a request of a session. `taken` says whether the file that an open asks for is taken
/// ([`crate::open::exclusive_file_of`]). What a read gives is put at the front of `buffer`.
///
/// An auth is [`Fault::NoAuthentication`]. A flush has nothing to do, since each request is
/// answered before the next one. Where it is an `Err`, the forest and the session are unchanged.
pub fn message<T: Tree>(
    setting: &Setting<T::Alloc>,
    forest: &mut Forest<T>,
    session: &mut Session<T::Alloc>,
    taken: bool,
    clock: u32,
    request: &TMsg<'_>,
    buffer: &mut [u8],
) -> Result<Reply, Fault>
    requires channels { SessionFits setting.now.table session.old }
    requires fids { AreWellOpen setting.now.table forest.old session.old.session.fids }
    requires buffer { iounit_of session.old.session ≤ length buffer.old }
    requires room { io_header + iounit_of session.old.session ≤ msize_max }
    ensures channels { SessionFits setting.now.table session.new }
    ensures reply { CanWrite result }
    ensures data { IsDataWithin (iounit_of session.old.session) result }
    ensures answer { (sessions : List SessionRow)
        → wants_taken_file setting.now forest.old sessions session.old.session (t_view request.now)
        ≡ taken
        → let answer = message_answer setting.now forest.old sessions session.old.session clock
        (t_view request.now) in Answers answer (may_run_out (t_view request.now) answer)
        forest.old forest.new session.old.session session.new.session
        (replied (reply_view forest.new buffer.new) result) }
{
    match request {
        TMsg::Version {
            msize,
            version: dialect,
        } => Ok(Reply::Message(version(setting, forest, session, clock, *msize, dialect)?)),
        TMsg::Auth { .. } => Err(Fault::NoAuthentication),
        TMsg::Attach {
            fid,
            afid,
            uname,
            aname,
        } => {
            let qid = attach(setting, forest, session, *fid, *afid, uname, aname)?;
            Ok(Reply::Message(RMsg::Attach { qid }))
        }
        TMsg::Flush { .. } => Ok(Reply::Message(RMsg::Flush)),
        TMsg::Walk { fid, newfid, names } => {
            let qids = walk(setting, forest, session, *fid, *newfid, names)?;
            Ok(Reply::Message(RMsg::Walk { qids }))
        }
        TMsg::Open { fid, mode } => {
            let (qid, iounit) = open(setting, forest, session, taken, clock, *fid, *mode)?;
            Ok(Reply::Message(RMsg::Open { qid, iounit }))
        }
        TMsg::Create {
            fid,
            name,
            perm,
            mode,
        } => {
            let wanted = NewFile {
                fid: *fid,
                name,
                perm: *perm,
                mode: *mode,
            };
            let (qid, iounit) = create(setting, forest, session, clock, wanted)?;
            Ok(Reply::Message(RMsg::Create { qid, iounit }))
        }
        TMsg::Read { fid, offset, count } => {
            let wanted = ReadRequest {
                fid: *fid,
                offset: *offset,
                count: *count,
            };
            let size = read(setting, forest, session, clock, wanted, buffer)?;
            Ok(Reply::Data(size))
        }
        TMsg::Write { fid, offset, bytes } => {
            let count = write(setting, forest, session, clock, *fid, *offset, bytes)?;
            Ok(Reply::Message(RMsg::Write { count }))
        }
        TMsg::Clunk { fid } => {
            clunk(setting, forest, session, clock, *fid)?;
            Ok(Reply::Message(RMsg::Clunk))
        }
        TMsg::Remove { fid } => Ok(Reply::Message(remove(setting, forest, session, clock, *fid)?)),
        TMsg::Stat { fid } => Ok(Reply::StatOf(stat(setting, forest, session, *fid)?)),
        TMsg::Wstat { fid, stat: wanted } => {
            wstat(setting, forest, session, clock, *fid, wanted)?;
            Ok(Reply::Message(RMsg::Wstat))
        }
    }
}
