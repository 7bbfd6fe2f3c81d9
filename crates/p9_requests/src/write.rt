//! The answer to a write, as read(5).

ghost use Rattle.std.specs.Prelude.{◌≡◌};
ghost use Rattle.p9_fids.specs.Opened.{writes};
ghost use Rattle.p9_wire.specs.Message.{Rwrite};
ghost use Rattle.p9_walks.specs.Held.{SessionFits};
ghost use Rattle.p9_walks.specs.Answers.{Answers, replied};
ghost use Rattle.p9_step.specs.Sound.{AreWellOpen};
ghost use Rattle.p9_step.specs.Memory.{is_done};
ghost use Rattle.p9_step.specs.Write.{is_writable, write_answer, write_offset};

use crate::open::is_append_only;
use p9_base::Fault;
use p9_fids::Fid;
use p9_tree::{Forest, Node, Tree, fits_file};
use p9_walks::session::Session;
use p9_walks::setting::Setting;
use std::alloc::Allocator;

/// Writes into the file of an open fid, at the offset, or at the end of an append-only file. A gap
/// before the offset is filled with zeros, and the file is marked. It returns how many bytes were
/// written: all of them. No bytes change nothing.
///
/// The first that applies refuses, and nothing changes: there is no such fid,
/// [`Fault::UnknownFid`]; it isn't open for writing, [`Fault::FidNotOpen`]; its file doesn't exist,
/// [`Fault::PhaseError`]; the file would have more than [`FILE_MAX`](p9_tree::FILE_MAX) bytes,
/// [`Fault::FileTooLarge`]. Else an allocation may fail, [`Fault::OutOfMemory`].
pub fn write<T: Tree>(
    setting: &Setting<T::Alloc>,
    forest: &mut Forest<T>,
    session: &Session<T::Alloc>,
    clock: u32,
    fid: u32,
    offset: u64,
    bytes: &[u8],
) -> Result<u32, Fault>
    requires channels { SessionFits setting.now.table session.now }
    requires opened { AreWellOpen setting.now.table forest.old session.now.session.fids }
    ensures { let answer = write_answer setting.now forest.old session.now.session clock fid offset
        bytes.now in Answers answer (is_done answer) forest.old forest.new session.now.session
        session.now.session (replied Rwrite result) }
{
    let Some(held) = session.fids.get(fid) else {
        return Err(Fault::UnknownFid);
    };
    if !is_writable(held) {
        return Err(Fault::FidNotOpen);
    }
    let at = setting.file(held);
    let Some(file) = forest.node(at) else {
        return Err(Fault::PhaseError);
    };
    if bytes.is_empty() {
        return Ok(0);
    }
    let place = write_offset(file, offset);
    if !fits_file(place, bytes.len()) {
        return Err(Fault::FileTooLarge);
    }
    forest.write(at, place, bytes)?;
    forest.bump(at, held.user, clock);
    Ok(bytes.len() as u32)
}

// Whether the fid is open for writing.
fn is_writable<A: Allocator + Copy>(fid: &Fid<A>) -> bool
    ensures { result ≡ is_writable fid.now.fid }
{
    fid.opened.is_some_and(|opened| opened.mode.writes())
}

// The offset; the end of an append-only file.
fn write_offset<A: Allocator>(file: &Node<A>, offset: u64) -> u64
    ensures { result ≡ write_offset offset file.now }
{
    if is_append_only(file) {
        file.bytes().len() as u64
    } else {
        offset
    }
}
