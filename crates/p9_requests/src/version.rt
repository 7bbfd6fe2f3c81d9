//! The answer to a version, as version(5).

ghost use Rattle.std.specs.Prelude.{◌≡◌, IfOk, false};
ghost use Rattle.p9_wire.specs.Message.{r_view};
ghost use Rattle.p9_step.specs.Sound.{AreWellOpen};
ghost use Rattle.p9_step.specs.Version.{is_known, version_answer};
ghost use Rattle.p9_walks.specs.Held.{SessionFits};
ghost use Rattle.p9_walks.specs.Answers.{Answers, ReplyFits, replied};

use p9_base::Fault;
use p9_tree::{Forest, Tree};
use p9_walks::end::end_fids;
use p9_walks::session::Session;
use p9_walks::setting::Setting;
use p9_wire::{MSIZE_MAX, RMsg};

/// The least msize that a client may ask for.
pub const MSIZE_MIN: u32 = 512;

/// Begins the session anew: all its fids end, and the lesser of the msize and [`MSIZE_MAX`] is the
/// greatest frame from now on.
///
/// An msize below [`MSIZE_MIN`] is [`Fault::SmallMsize`]. A version that isn't 9P2000 or a dialect
/// of it is answered `unknown`. In both cases the session is unchanged. It takes no memory.
pub fn version<T: Tree>(
    setting: &Setting<T::Alloc>,
    forest: &mut Forest<T>,
    session: &mut Session<T::Alloc>,
    clock: u32,
    msize: u32,
    version: &str,
) -> Result<RMsg<'static>, Fault>
    requires channels { SessionFits setting.now.table session.old }
    requires opened { AreWellOpen setting.now.table forest.old session.old.session.fids }
    ensures channels { SessionFits setting.now.table session.new }
    ensures reply { IfOk result (λ reply. ReplyFits (r_view reply)) }
    ensures answer { Answers (version_answer setting.now forest.old session.old.session clock msize
        version.now) false forest.old forest.new session.old.session session.new.session
        (replied r_view result) }
{
    if msize < MSIZE_MIN {
        return Err(Fault::SmallMsize);
    }
    let msize = msize.min(MSIZE_MAX);
    if !is_known(version) {
        return Ok(RMsg::Version {
            msize,
            version: "unknown",
        });
    }
    end_fids(setting, forest, &mut session.fids, clock);
    session.msize = Some(msize);
    Ok(RMsg::Version {
        msize,
        version: "9P2000",
    })
}

// Whether the version is 9P2000, or a dialect of it.
fn is_known(version: &str) -> bool
    ensures { result ≡ is_known version.now }
{
    version == "9P2000" || version.as_bytes().starts_with(b"9P2000.")
}
