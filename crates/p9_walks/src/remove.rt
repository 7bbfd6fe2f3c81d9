//! The answer to a remove, as remove(5).

ghost use Rattle.std.specs.Prelude.{◌≡◌, IfOk, false};
ghost use Rattle.p9_fids.specs.Held.{HeldFits};
ghost use Rattle.p9_wire.specs.Message.{Rremove, r_view};
ghost use Rattle.p9_walks.specs.Held.{SessionFits};
ghost use Rattle.p9_walks.specs.Answers.{Answers, ReplyFits, replied};
ghost use Rattle.p9_step.specs.Remove.{remove_answer, removal};
ghost use Rattle.p9_step.specs.State.{Session as SessionOf};

use crate::end::mark_parent;
use crate::rights::may_write_parent;
use crate::session::Session;
use crate::setting::Setting;
use p9_base::Fault;
use p9_fids::Fid;
use p9_tree::{Forest, Tree};
use p9_wire::RMsg;

/// Removes the file of a fid, and marks the directory that it was in. The fid ends in every case,
/// and removes nothing on its close: so why the file stays is part of the answer, and a fault is
/// only that the fid isn't there, [`Fault::UnknownFid`], and then nothing changes.
///
/// The first that applies is returned: the file doesn't exist, [`Fault::PhaseError`]; it is a server's
/// root, [`Fault::IsRoot`]; the user may not write its directory, [`Fault::PermissionDenied`]; it
/// is a directory with entries, [`Fault::NotEmpty`]. It takes no memory.
pub fn remove<T: Tree>(
    setting: &Setting<T::Alloc>,
    forest: &mut Forest<T>,
    session: &mut Session<T::Alloc>,
    clock: u32,
    fid: u32,
) -> Result<RMsg<'static>, Fault>
    requires channels { SessionFits setting.now.table session.old }
    ensures channels { SessionFits setting.now.table session.new }
    ensures reply { IfOk result (λ reply. ReplyFits (r_view reply)) }
    ensures answer { Answers (remove_answer setting.now forest.old session.old.session clock fid)
        false forest.old forest.new session.old.session session.new.session
        (replied r_view result) }
{
    let Some(ended) = session.fids.take(fid) else {
        return Err(Fault::UnknownFid);
    };
    match remove_file(setting, forest, &ended, clock) {
        Ok(()) => Ok(RMsg::Remove),
        Err(fault) => Ok(RMsg::Error {
            ename: fault.text(),
        }),
    }
}

// Removes the file of a fid that has left its session, or returns why it stays.
fn remove_file<T: Tree>(
    setting: &Setting<T::Alloc>,
    forest: &mut Forest<T>,
    fid: &Fid<T::Alloc>,
    clock: u32,
) -> Result<(), Fault>
    requires { HeldFits setting.now.table fid.now }
    ensures { (left : SessionOf) → Answers (removal setting.now forest.old left clock fid.now.fid)
        false forest.old forest.new left left (replied (λ _. Rremove) result) }
{
    let at = setting.file(fid);
    let Some(file) = forest.node(at) else {
        return Err(Fault::PhaseError);
    };
    let parent = file.parent();
    if parent.is_none() {
        return Err(Fault::IsRoot);
    }
    if !may_write_parent(setting.who(&fid.user), forest, at, file) {
        return Err(Fault::PermissionDenied);
    }
    if forest.after(at, None).is_some() {
        return Err(Fault::NotEmpty);
    }
    forest.well_formed();
    forest.drop_leaf(at);
    mark_parent(forest, at, parent, fid.user, clock);
    Ok(())
}
