//! The tests that a caller of the writers may make: whether a message has a spelling, and how long
//! that is. A number fits by its type, so only texts and lengths are looked at.

ghost use Rattle.std.specs.Prelude.{◌≡◌, ◌<◌, ◌+◌, ◌^◌, ◌↔◌, IsTrue, length, sum_by};
ghost use Rattle.p9_wire.specs.Fields.{FitsText, FitsNames, FitsStat, stat_len};
ghost use Rattle.p9_wire.specs.Stat.{stat_view};
ghost use Rattle.p9_wire.specs.Message.{t_view, r_view};
ghost use Rattle.p9_wire.specs.Spelling.{t_len, TFits, r_len, RFits};

use crate::constants::{HEADER, QID};
use crate::message::{RMsg, TMsg};
use p9_base::is_text;
use p9_fields::{MAXWELEM, Names, Stat};

/// The most bytes of a text, whose length is in two.
const TEXT_MAX: usize = 65_535;

/// The most bytes of a frame that its size can tell. A session's frames are shorter: `MSIZE_MAX`.
const FRAME_MAX: usize = 0xFFFF_FFFF;

/// Whether a text has a spelling: two bytes hold its length, and it has no NUL.
fn text_fits(text: &str) -> bool
    ensures { IsTrue result ↔ FitsText text.now }
{
    text.len() <= TEXT_MAX && is_text(text)
}

/// Whether each name has a spelling.
fn names_fit(names: &Names<'_>) -> bool
    ensures { IsTrue result ↔ FitsNames names.now }
{
    for name in names.as_slice() {
        if !text_fits(name) {
            return false;
        }
    }
    true
}

/// How many bytes the names take, each with its length.
fn names_size(names: &Names<'_>) -> usize
    requires { FitsNames names.now }
    ensures sum { result ≡ sum_by (λ n. 2 + length n) names.now }
    ensures small { result < 2 ^ 21 }
{
    let mut size = 0;
    for name in names.as_slice() {
        size += 2 + name.len();
    }
    size
}

/// Whether a stat has a spelling: its texts have one, and two bytes hold its length.
fn stat_fits(stat: &Stat<'_>) -> bool
    ensures { IsTrue result ↔ FitsStat (stat_view stat.now) }
{
    let texts_fit = text_fits(stat.name)
        && text_fits(stat.uid)
        && text_fits(stat.gid)
        && text_fits(stat.muid);
    texts_fit && stat.size() <= TEXT_MAX
}

impl TMsg<'_> {
    /// Whether the request has a spelling, as `write_t` asks: its texts have no NUL and are short
    /// enough for their length, and so is the whole for its size.
    pub fn fits(&self) -> bool
        ensures { IsTrue result ↔ TFits (t_view self.now) }
    {
        match self {
            TMsg::Version { version, .. } => text_fits(version),
            TMsg::Auth { uname, aname, .. } => text_fits(uname) && text_fits(aname),
            TMsg::Attach { uname, aname, .. } => text_fits(uname) && text_fits(aname),
            TMsg::Flush { .. } => true,
            TMsg::Walk { names, .. } => names_fit(names),
            TMsg::Open { .. } => true,
            TMsg::Create { name, .. } => text_fits(name),
            TMsg::Read { .. } => true,
            TMsg::Write { bytes, .. } => bytes.len() <= FRAME_MAX - HEADER - 4 - 8 - 4,
            TMsg::Clunk { .. } => true,
            TMsg::Remove { .. } => true,
            TMsg::Stat { .. } => true,
            TMsg::Wstat { stat, .. } => stat_fits(stat),
        }
    }

    /// How many bytes the request takes, its header among them.
    pub fn size(&self) -> usize
        requires { TFits (t_view self.now) }
        ensures { result ≡ 7 + t_len (t_view self.now) }
    {
        match self {
            TMsg::Version { version, .. } => HEADER + 4 + 2 + version.len(),
            TMsg::Auth { uname, aname, .. } => HEADER + 4 + 2 + uname.len() + 2 + aname.len(),
            TMsg::Attach { uname, aname, .. } => HEADER + 8 + 2 + uname.len() + 2 + aname.len(),
            TMsg::Flush { .. } => HEADER + 2,
            TMsg::Walk { names, .. } => HEADER + 8 + 2 + names_size(names),
            TMsg::Open { .. } => HEADER + 4 + 1,
            TMsg::Create { name, .. } => HEADER + 4 + 2 + name.len() + 4 + 1,
            TMsg::Read { .. } => HEADER + 4 + 8 + 4,
            TMsg::Write { bytes, .. } => HEADER + 4 + 8 + 4 + bytes.len(),
            TMsg::Clunk { .. } => HEADER + 4,
            TMsg::Remove { .. } => HEADER + 4,
            TMsg::Stat { .. } => HEADER + 4,
            TMsg::Wstat { stat, .. } => HEADER + 4 + 2 + stat.size(),
        }
    }
}

impl RMsg<'_> {
    /// Whether the reply has a spelling, as `write_r` asks: its texts have no NUL and are short
    /// enough for their length, and so is the whole for its size.
    pub fn fits(&self) -> bool
        ensures { IsTrue result ↔ RFits (r_view self.now) }
    {
        match self {
            RMsg::Version { version, .. } => text_fits(version),
            RMsg::Attach { .. } => true,
            RMsg::Error { ename } => text_fits(ename),
            RMsg::Flush => true,
            RMsg::Walk { qids } => qids.len() <= MAXWELEM,
            RMsg::Open { .. } => true,
            RMsg::Create { .. } => true,
            RMsg::Read { bytes } => bytes.len() <= FRAME_MAX - HEADER - 4,
            RMsg::Write { .. } => true,
            RMsg::Clunk => true,
            RMsg::Remove => true,
            RMsg::Stat { stat } => stat_fits(stat),
            RMsg::Wstat => true,
        }
    }

    /// How many bytes the reply takes, its header among them.
    pub fn size(&self) -> usize
        requires { RFits (r_view self.now) }
        ensures { result ≡ 7 + r_len (r_view self.now) }
    {
        match self {
            RMsg::Version { version, .. } => HEADER + 4 + 2 + version.len(),
            RMsg::Attach { .. } => HEADER + QID,
            RMsg::Error { ename } => HEADER + 2 + ename.len(),
            RMsg::Flush => HEADER,
            RMsg::Walk { qids } => HEADER + 2 + QID * qids.len(),
            RMsg::Open { .. } => HEADER + QID + 4,
            RMsg::Create { .. } => HEADER + QID + 4,
            RMsg::Read { bytes } => HEADER + 4 + bytes.len(),
            RMsg::Write { .. } => HEADER + 4,
            RMsg::Clunk => HEADER,
            RMsg::Remove => HEADER,
            RMsg::Stat { stat } => HEADER + 2 + stat.size(),
            RMsg::Wstat => HEADER,
        }
    }
}
