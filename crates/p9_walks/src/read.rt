//! The answer to a read, as read(5).

ghost use Rattle.std.specs.Prelude.{◌≡◌, ◌==◌, ◌||◌, ◌≤◌, ◌<◌, ◌^◌, Err, false, IfErr, IfOk, length};
ghost use Rattle.std.specs.Prelude.{take, ℕ};
ghost use Rattle.p9_fids.specs.Held.{HeldFits};
ghost use Rattle.p9_walks.specs.Held.{SessionFits};
ghost use Rattle.p9_walks.specs.Answers.{Answers, data_reply, replied};
ghost use Rattle.p9_walks.specs.Listing.{list_answer};
ghost use Rattle.p9_step.specs.State.{Session as SessionOf, iounit_of};
ghost use Rattle.p9_step.specs.Read.{cursor_at, read_answer, read_dir, readable};

use crate::listing::list;
use crate::session::Session;
use crate::setting::Setting;
use p9_base::Fault;
use p9_fids::{Cursor, Fid, Opened};
use p9_tree::{Forest, Tree};

/// What a read asks for.
#[derive(Clone, Copy)]
pub struct ReadRequest {
    pub fid: u32,
    pub offset: u64,
    /// The most bytes that are given.
    pub count: u32,
}

// What a read of a directory gave.
#[derive(Clone, Copy)]
struct Listed {
    // So many bytes at the front of the buffer.
    size: u32,
    // What the fid is open for from then on.
    opened: Opened,
}

/// Puts what a fid reads at the front of the buffer, and returns how many bytes that is: at most
/// the count that is asked for, and at most [`Session::iounit`].
///
/// A file gives its bytes from the offset on, and the reading of the clock becomes the time when it
/// was last read (its atime). A directory gives whole stats of the entries of its union that are
/// left; offset 0 begins anew. This takes no memory.
///
/// The first that applies refuses, and nothing changes: no such fid, [`Fault::UnknownFid`]; not
/// open for reading, [`Fault::FidNotOpen`]; the file is gone, [`Fault::PhaseError`]; in a
/// directory, an offset that is neither 0 nor where the last read ended,
/// [`Fault::BadDirectoryOffset`]; there, an entry that is left and no room for it,
/// [`Fault::SmallReadCount`].
pub fn read<T: Tree>(
    setting: &Setting<T::Alloc>,
    forest: &mut Forest<T>,
    session: &mut Session<T::Alloc>,
    clock: u32,
    wanted: ReadRequest,
    buffer: &mut [u8],
) -> Result<u32, Fault>
    requires channels { SessionFits setting.now.table session.old }
    requires room { iounit_of session.old.session ≤ length buffer.old }
    ensures channels { SessionFits setting.now.table session.new }
    ensures size { IfOk result (λ count. count ≤ iounit_of session.old.session) }
    ensures answer { Answers (read_answer setting.now forest.old session.old.session clock wanted.fid
        wanted.offset wanted.count) false forest.old forest.new session.old.session
        session.new.session (replied (data_reply buffer.new) result) }
{
    let Some(held) = session.fids.get(wanted.fid) else {
        return Err(Fault::UnknownFid);
    };
    let Some(opened) = readable(held.opened) else {
        return Err(Fault::FidNotOpen);
    };
    let at = setting.file(held);
    let Some(file) = forest.node(at) else {
        return Err(Fault::PhaseError);
    };
    let room = wanted.count.min(session.iounit()) as usize;
    if file.is_dir() {
        let listed = list_of(
            setting,
            forest,
            held,
            opened,
            wanted.offset,
            &mut buffer[..room],
        )?;
        session.fids.set_opened(wanted.fid, listed.opened);
        Ok(listed.size)
    } else {
        let size = file.read_into(wanted.offset, &mut buffer[..room]);
        forest.touch(at, clock);
        Ok(size as u32)
    }
}

// Open for reading, or not.
fn readable(opened: Option<Opened>) -> Option<Opened>
    ensures { result ≡ readable opened }
{
    match opened {
        Some(opened) if opened.mode.reads() => Some(opened),
        _ => None,
    }
}

// Lists the directory of a fid that is open as said, into the whole buffer.
fn list_of<T: Tree>(
    setting: &Setting<T::Alloc>,
    forest: &Forest<T>,
    held: &Fid<T::Alloc>,
    opened: Opened,
    offset: u64,
    buffer: &mut [u8],
) -> Result<Listed, Fault>
    requires fits { HeldFits setting.now.table held.now }
    requires short { length buffer.old < 2 ^ 32 }
    ensures size { IfOk result (λ listed. listed.size ≤ length buffer.old) }
    ensures ok { (session : SessionOf) (fid : ℕ) → IfOk result
        (λ listed. read_dir setting.now forest.now session fid held.now.fid opened offset
        (length buffer.old) ≡ list_answer session fid listed.opened (take listed.size buffer.new)) }
    ensures err { (session : SessionOf) (fid : ℕ) → IfErr result
        (λ fault. read_dir setting.now forest.now session fid held.now.fid opened offset
        (length buffer.old) ≡ Err fault) }
{
    if !may_begin(offset, &opened) {
        return Err(Fault::BadDirectoryOffset);
    }
    let members = held.channels.members(&setting.table);
    let cursor = cursor_at(offset, &opened);
    let filled = list(
        forest,
        members.as_slice(),
        setting.who(&held.user),
        cursor,
        buffer,
    )?;
    Ok(Listed {
        size: filled.size as u32,
        opened: Opened {
            next_offset: u128::from(offset) + filled.size as u128,
            cursor: filled.cursor,
            ..opened
        },
    })
}

// Whether a read of a directory may begin at the offset.
fn may_begin(offset: u64, opened: &Opened) -> bool
    ensures { result ≡ (offset == 0 || offset == opened.now.next_offset) }
{
    offset == 0 || u128::from(offset) == opened.next_offset
}

// The last entry that was given. Offset 0 begins anew.
fn cursor_at(offset: u64, opened: &Opened) -> Option<Cursor>
    ensures { result ≡ cursor_at offset opened.now }
{
    if offset == 0 { None } else { opened.cursor }
}
