//! The answer to a stat, as stat(5).

ghost use Rattle.std.specs.Prelude.{◌≡◌, false};
ghost use Rattle.p9_walks.specs.Held.{SessionFits};
ghost use Rattle.p9_walks.specs.Answers.{Answers, replied, stat_reply};
ghost use Rattle.p9_step.specs.Stat.{stat_answer};

use crate::session::Session;
use crate::setting::Setting;
use p9_base::{Fault, NodeRef};
use p9_tree::{Forest, Tree};

/// Finds the file of a fid, whose stat is the reply. No permission is needed.
///
/// The first that applies refuses: the fid isn't there, [`Fault::UnknownFid`]; its file doesn't
/// exist, [`Fault::PhaseError`]. It changes nothing, and takes no memory.
pub fn stat<T: Tree>(
    setting: &Setting<T::Alloc>,
    forest: &Forest<T>,
    session: &Session<T::Alloc>,
    fid: u32,
) -> Result<NodeRef, Fault>
    requires { SessionFits setting.now.table session.now }
    ensures { Answers (stat_answer setting.now forest.now session.now.session fid) false forest.now
        forest.now session.now.session session.now.session
        (replied (stat_reply forest.now) result) }
{
    let Some(held) = session.fids.get(fid) else {
        return Err(Fault::UnknownFid);
    };
    let at = setting.file(held);
    if forest.node(at).is_none() {
        return Err(Fault::PhaseError);
    }
    Ok(at)
}
