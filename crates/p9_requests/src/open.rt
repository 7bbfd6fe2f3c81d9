//! The answer to an open, as open(5).

ghost use Rattle.std.specs.Prelude.{◌≡◌, ◌∷◌, [], List, false, nat_lt, IfSome, IsSome};
ghost use Rattle.std.specs.List.{All, list_any};
ghost use Rattle.std.specs.Map.{values_of};
ghost use Rattle.std.specs.Option.{option_map_or};
ghost use Rattle.p9_fids.specs.Fid.{open_count};
ghost use Rattle.p9_tree.specs.Forest.{node_of};
ghost use Rattle.p9_walks.specs.Held.{SessionFits, SessionsFit, sessions_in};
ghost use Rattle.p9_walks.specs.Answers.{Answers, replied};
ghost use Rattle.p9_requests.specs.Answers.{open_reply};
ghost use Rattle.p9_space.specs.Rights.{who_view};
ghost use Rattle.p9_step.specs.ForestChange.{Cut, EditNode, Mark, all_applied, edited};
ghost use Rattle.p9_requests.specs.Taken.{has_taken_file};
ghost use Rattle.p9_step.specs.Open.{is_append_only, is_cut, is_exclusive, is_in_use};
ghost use Rattle.p9_step.specs.Open.{may_open, open_answer};
ghost use Rattle.p9_step.specs.Qid.{qid_of};
ghost use Rattle.p9_step.specs.State.{SessionRow};

use p9_base::{Fault, Kind, NodeRef, Qid, User};
use p9_space::{MountTable, Who, may};
use p9_step::Opening;
use p9_tree::{Forest, Node, Tree};
use p9_walks::qid::qid_of;
use p9_walks::rights::may_write_parent;
use p9_walks::session::Session;
use p9_walks::setting::Setting;
use std::alloc::Allocator;
use std::collections::BTreeMap;

/// Opens a fid for what the mode's bits ask, and returns the qid of its file and the session's
/// iounit ([`Session::iounit`]). Truncation cuts the file to nothing and marks it, but an
/// append-only file is unchanged. `taken` says whether the file is taken ([`exclusive_file_of`]).
///
/// The first that applies refuses, and nothing changes: there is no such fid,
/// [`Fault::UnknownFid`]; it is open, [`Fault::FidOpen`]; its file doesn't exist,
/// [`Fault::PhaseError`]; the mode means nothing, [`Fault::BadOpenMode`]; a directory is asked for
/// anything but to be read, [`Fault::IsDirectory`]; the user lacks a right,
/// [`Fault::PermissionDenied`]; the file is taken, [`Fault::ExclusiveUse`]. It takes no memory.
pub fn open<T: Tree>(
    setting: &Setting<T::Alloc>,
    forest: &mut Forest<T>,
    session: &mut Session<T::Alloc>,
    taken: bool,
    clock: u32,
    fid: u32,
    bits: u8,
) -> Result<(Qid, u32), Fault>
    requires channels { SessionFits setting.now.table session.old }
    ensures channels { SessionFits setting.now.table session.new }
    ensures answer { (sessions : List SessionRow)
        → has_taken_file setting.now forest.old sessions session.old.session fid ≡ taken
        → Answers (open_answer setting.now forest.old sessions session.old.session clock fid bits)
        false forest.old forest.new session.old.session session.new.session
        (replied open_reply result) }
{
    let Some(held) = session.fids.get(fid) else {
        return Err(Fault::UnknownFid);
    };
    if held.opened.is_some() {
        return Err(Fault::FidOpen);
    }
    let user = held.user;
    let at = setting.file(held);
    let Some(file) = forest.node(at) else {
        return Err(Fault::PhaseError);
    };
    let Some(opening) = Opening::from_bits(bits) else {
        return Err(Fault::BadOpenMode);
    };
    if file.is_dir() && !opening.is_plain_read() {
        return Err(Fault::IsDirectory);
    }
    if !may_open(setting.who(&user), forest, at, file, opening) {
        return Err(Fault::PermissionDenied);
    }
    if taken {
        return Err(Fault::ExclusiveUse);
    }
    forest.well_formed();
    let qid = if is_cut(file, opening) {
        cut_file(forest, at, user, clock)
    } else {
        qid_of(at, file)
    };
    session.fids.set_opened(fid, opening.opened());
    Ok((qid, session.iounit()))
}

// Whether the user has each right that the mode asks for, and to remove on close, to change the
// file's directory.
fn may_open<T: Tree>(
    who: Who<'_, T::Alloc>,
    forest: &Forest<T>,
    at: NodeRef,
    file: &Node<T::Alloc>,
    opening: Opening,
) -> bool
    ensures { result ≡ may_open (who_view who.entry) forest.now at file.now opening }
{
    may(who, file, opening.wanted())
        && (!opening.remove_on_close || may_write_parent(who, forest, at, file))
}

// Whether the opening truncates the file.
fn is_cut<A: Allocator>(file: &Node<A>, opening: Opening) -> bool
    ensures { result ≡ is_cut file.now opening }
{
    opening.truncates && !is_append_only(file)
}

// Cuts a file to nothing and marks it, and returns its qid after that.
fn cut_file<T: Tree>(forest: &mut Forest<T>, at: NodeRef, user: User, clock: u32) -> Qid
    requires { IsSome (node_of at forest.old) }
    ensures forest { forest.new ≡ all_applied (EditNode at (Cut 0) ∷ EditNode at (Mark user clock)
        ∷ []) forest.old }
    ensures qid { IfSome (node_of at forest.old)
        (λ n. result ≡ qid_of at (edited (Mark user clock) (edited (Cut 0) n))) }
{
    forest.cut(at, 0);
    forest.bump(at, user, clock);
    forest.well_formed();
    qid_of(at, forest.node(at).unwrap())
}

/// Whether each write goes to the file's end, and no opening truncates it.
pub fn is_append_only<A: Allocator>(file: &Node<A>) -> bool
    ensures { result ≡ is_append_only file.now }
{
    match file.mode().kind {
        Kind::File(flags) => flags.append_only,
        Kind::Directory => false,
    }
}

// Whether the file is exclusive: one fid at a time may have it open.
fn is_exclusive<A: Allocator>(file: &Node<A>) -> bool
    ensures { result ≡ is_exclusive file.now }
{
    match file.mode().kind {
        Kind::File(flags) => flags.exclusive,
        Kind::Directory => false,
    }
}

/// Whether a fid of some session has the file open.
pub fn is_in_use<A: Allocator + Copy>(
    table: &MountTable<A>,
    at: NodeRef,
    sessions: &BTreeMap<u32, Session<A>, A>,
) -> bool
    requires { SessionsFit table.now sessions.now.entries }
    ensures { result ≡ is_in_use table.now at (sessions_in sessions.now.entries) }
{
    any_has_open(table, at, sessions)
}

fn any_has_open<A: Allocator + Copy>(
    table: &MountTable<A>,
    at: NodeRef,
    sessions: &BTreeMap<u32, Session<A>, A>,
) -> bool
    requires { All (SessionFits table.now) (values_of sessions.now.entries) }
    ensures { result ≡ list_any (λ held. nat_lt 0 (open_count table.now at held.session.fids))
        (values_of sessions.now.entries) }
{
    sessions
        .values()
        .any(|session| session.fids.has_open_by_rows(table, at))
}

/// The file of the fid, if it is exclusive. It is taken where a fid of some session has it open.
pub fn exclusive_file_of<T: Tree>(
    setting: &Setting<T::Alloc>,
    forest: &Forest<T>,
    session: &Session<T::Alloc>,
    fid: u32,
) -> Option<NodeRef>
    requires { SessionFits setting.now.table session.now }
    ensures { (sessions : List SessionRow) → has_taken_file setting.now forest.now sessions
        session.now.session fid ≡ option_map_or (λ at. is_in_use setting.now.table at sessions)
        result false }
{
    let held = session.fids.get(fid)?;
    let at = setting.file(held);
    let file = forest.node(at)?;
    is_exclusive(file).then_some(at)
}
