//! The answer to a clunk, as clunk(5).

ghost use Rattle.std.specs.Prelude.{◌≡◌, false};
ghost use Rattle.p9_wire.specs.Message.{Rclunk};
ghost use Rattle.p9_walks.specs.Held.{SessionFits};
ghost use Rattle.p9_walks.specs.Answers.{Answers, replied};
ghost use Rattle.p9_step.specs.Clunk.{clunk_answer};
ghost use Rattle.p9_step.specs.Sound.{AreWellOpen};

use crate::end::end_fid;
use crate::session::Session;
use crate::setting::Setting;
use p9_base::Fault;
use p9_tree::{Forest, Tree};

/// Lets a fid go, with what its end does ([`end_fid`]).
///
/// A fid that isn't there is [`Fault::UnknownFid`], and nothing changes. Nothing else refuses, and
/// it takes no memory.
pub fn clunk<T: Tree>(
    setting: &Setting<T::Alloc>,
    forest: &mut Forest<T>,
    session: &mut Session<T::Alloc>,
    clock: u32,
    fid: u32,
) -> Result<(), Fault>
    requires opened { AreWellOpen setting.now.table forest.old session.old.session.fids }
    requires channels { SessionFits setting.now.table session.old }
    ensures channels { SessionFits setting.now.table session.new }
    ensures answer { Answers (clunk_answer setting.now forest.old session.old.session clock fid) false
        forest.old forest.new session.old.session session.new.session
        (replied (λ _. Rclunk) result) }
{
    let Some(ended) = session.fids.take(fid) else {
        return Err(Fault::UnknownFid);
    };
    end_fid(setting, forest, &ended, clock);
    Ok(())
}
