//! The qids of files, and their stats, as intro(5) and stat(5).

ghost use Rattle.std.specs.Prelude.{◌≡◌, ◌+◌, ◌*◌, ◌<◌, ◌≤◌, ◌^◌};
ghost use Rattle.p9_base.specs.Mode.{qid_kind};
ghost use Rattle.p9_step.specs.Qid.{qid_of, stat_max, stat_of};
ghost use Rattle.p9_wire.specs.Fields.{FitsStat, stat_len};
ghost use Rattle.p9_wire.specs.Stat.{stat_view};

use p9_base::{Mode, NodeRef, Qid};
use p9_tree::Node;
use p9_wire::Stat;
use std::alloc::Allocator;

/// The qid of a file: its kind, its version, and its identity among the files of all servers, as
/// intro(5).
pub fn qid_of<A: Allocator>(at: NodeRef, file: &Node<A>) -> Qid
    requires { at.number < 2 ^ 48 }
    ensures { result ≡ qid_of at file.now }
{
    Qid {
        kind: file.mode().qid_kind(),
        version: file.version(),
        path: path_of(at),
    }
}

/// The qid of a new file of this mode.
pub fn new_qid(at: NodeRef, mode: Mode) -> Qid
    requires { at.number < 2 ^ 48 }
    ensures { result ≡ record {
      kind = qid_kind mode;
      version = 0;
      path = at.server * 2 ^ 48 + at.number;
    } }
{
    Qid {
        kind: mode.qid_kind(),
        version: 0,
        path: path_of(at),
    }
}

// The identity of a file among those of all servers.
fn path_of(at: NodeRef) -> u64
    requires { at.number < 2 ^ 48 }
    ensures { result ≡ at.server * 2 ^ 48 + at.number }
{
    (u64::from(at.server) << 48) + at.number
}

/// The stat of a file, as stat(5). A directory has no bytes.
pub fn stat_of<A: Allocator>(at: NodeRef, file: &Node<A>) -> Stat<'_>
    requires { at.number < 2 ^ 48 }
    ensures fits { FitsStat (stat_view result) }
    ensures short { stat_len (stat_view result) ≤ stat_max }
    ensures value { stat_view result ≡ stat_of at file.now }
{
    Stat {
        kind: 0,
        dev: u32::from(at.server),
        qid: qid_of(at, file),
        mode: file.mode().bits(),
        atime: file.atime(),
        mtime: file.mtime(),
        length: file.bytes().len() as u64,
        name: file.name(),
        uid: file.uid().as_str(),
        gid: file.gid().as_str(),
        muid: file.muid().as_str(),
    }
}
