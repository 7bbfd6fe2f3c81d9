//! The answer to a wstat, as stat(5).

ghost use Rattle.std.specs.Prelude.{◌≡◌, ◌-◌, ◌^◌, Ok, option_and_then};
ghost use Rattle.std.specs.Option.{option_copied, option_or};
ghost use Rattle.p9_base.specs.Mode.{mode_of};
ghost use Rattle.p9_base.specs.Results.{unless};
ghost use Rattle.p9_space.specs.Rights.{who_view};
ghost use Rattle.p9_wire.specs.Stat.{stat_view};
ghost use Rattle.p9_wire.specs.Message.{Rwstat};
ghost use Rattle.p9_walks.specs.Held.{SessionFits};
ghost use Rattle.p9_walks.specs.Answers.{Answers, replied};
ghost use Rattle.p9_step.specs.Memory.{is_done};
ghost use Rattle.p9_step.specs.Wstat.{gid_fault, has_sibling, is_any, is_number_touched};
ghost use Rattle.p9_step.specs.Wstat.{is_text_touched, length_fault, may_give, mode_fault};
ghost use Rattle.p9_step.specs.Wstat.{name_fault, node_change, ruling_fault, touched_number};
ghost use Rattle.p9_requests.specs.Wstat.{touched_view};
ghost use Rattle.p9_step.specs.Wstat.{touched_of, touched_text, touches_fixed};
ghost use Rattle.p9_step.specs.Wstat.{touches_qid, wstat_answer, wstat_fault};

use p9_base::{Fault, Mode, Name, NodeRef, Qid, User};
use p9_space::{TO_WRITE, Who, may, rules};
use p9_tree::{Change, FILE_MAX, Forest, Node, Tree};
use p9_walks::end::mark_parent;
use p9_walks::qid::stat_of;
use p9_walks::rights::may_write_parent;
use p9_walks::session::Session;
use p9_walks::setting::Setting;
use p9_wire::Stat;
use std::alloc::Allocator;

// What a wstat touches of the fields that it may change.
#[derive(Clone, Copy)]
struct Touched<'a> {
    mode: Option<u32>,
    name: Option<&'a str>,
    length: Option<u64>,
    mtime: Option<u32>,
    gid: Option<&'a str>,
}

/// Changes the stat of a fid's file, all at once, and marks the directory that it is in.
/// A field is untouched that holds its greatest number, or is empty, or holds what is there.
/// Where all are untouched, nothing changes.
///
/// # Errors
///
/// The tests are of the file as it is, and the first that applies is returned. The trees are then
/// unchanged.
///
/// 1. [`Fault::UnknownFid`]: the session has no such fid.
/// 2. [`Fault::PhaseError`]: the fid's file doesn't exist.
/// 3. [`Fault::FixedField`]: a field is touched that no wstat changes.
/// 4. [`Fault::FixedField`]: the mode means nothing, or is a directory's for a file or a file's for a
///    directory.
/// 5. [`Fault::IsRoot`]: a name is for a server's root.
/// 6. [`Fault::BadFileName`]: the name isn't valid.
/// 7. [`Fault::PermissionDenied`]: a name is touched, and the user may not write the directory that
///    the file is in.
/// 8. [`Fault::FileExists`]: that directory has an entry of the name.
/// 9. [`Fault::IsDirectory`]: a length is for a directory.
/// 10. [`Fault::PermissionDenied`]: a length is touched, and the user may not write the file.
/// 11. [`Fault::FileTooLarge`]: the length is more than [`FILE_MAX`].
/// 12. [`Fault::PermissionDenied`]: the mode or the mtime is touched, and the user doesn't rule the
///     file.
/// 13. [`Fault::PermissionDenied`]: the user may not give the file to the group.
/// 14. [`Fault::OutOfMemory`]: an allocation failed.
pub fn wstat<T: Tree>(
    setting: &Setting<T::Alloc>,
    forest: &mut Forest<T>,
    session: &Session<T::Alloc>,
    clock: u32,
    fid: u32,
    wanted: &Stat<'_>,
) -> Result<(), Fault>
    requires channels { SessionFits setting.now.table session.now }
    ensures { let answer = wstat_answer setting.now forest.old session.now.session clock fid
        (stat_view wanted.now) in Answers answer (is_done answer) forest.old forest.new
        session.now.session session.now.session (replied (λ _. Rwstat) result) }
{
    let Some(held) = session.fids.get(fid) else {
        return Err(Fault::UnknownFid);
    };
    let at = setting.file(held);
    let Some(file) = forest.node(at) else {
        return Err(Fault::PhaseError);
    };
    forest.well_formed();
    let there = stat_of(at, file);
    if touches_fixed(&there, wanted) {
        return Err(Fault::FixedField);
    }
    let touched = touched_of(&there, wanted);
    let change = change_wanted(setting.who(&held.user), forest, at, file, clock, &touched)?;
    if !is_any(&touched) {
        return Ok(());
    }
    let parent = file.parent();
    forest.change(at, &change)?;
    mark_parent(forest, at, parent, held.user, clock);
    Ok(())
}

// Whether a field is touched that no wstat changes.
fn touches_fixed(there: &Stat<'_>, wanted: &Stat<'_>) -> bool
    ensures { result ≡ touches_fixed (stat_view there.now) (stat_view wanted.now) }
{
    is_number_touched(u16::MAX.into(), there.kind.into(), wanted.kind.into())
        || is_number_touched(u32::MAX.into(), there.dev.into(), wanted.dev.into())
        || touches_qid(&there.qid, &wanted.qid)
        || is_number_touched(u32::MAX.into(), there.atime.into(), wanted.atime.into())
        || is_text_touched(there.uid, wanted.uid)
        || is_text_touched(there.muid, wanted.muid)
}

// Whether a part of the qid is touched.
fn touches_qid(there: &Qid, wanted: &Qid) -> bool
    ensures { result ≡ touches_qid there.now wanted.now }
{
    is_number_touched(u8::MAX.into(), there.kind.into(), wanted.kind.into())
        || is_number_touched(u32::MAX.into(), there.version.into(), wanted.version.into())
        || is_number_touched(u64::MAX, there.path, wanted.path)
}

// What is touched of the fields that a wstat may change.
fn touched_of<'a>(there: &Stat<'_>, wanted: &Stat<'a>) -> Touched<'a>
    ensures { touched_view result ≡ touched_of (stat_view there.now) (stat_view wanted.now) }
{
    Touched {
        mode: touched_u32(there.mode, wanted.mode),
        name: touched_text(there.name, wanted.name),
        length: touched_u64(there.length, wanted.length),
        mtime: touched_u32(there.mtime, wanted.mtime),
        gid: touched_text(there.gid, wanted.gid),
    }
}

// The number that is wanted, where it is touched.
fn touched_u32(there: u32, wanted: u32) -> Option<u32>
    ensures { result ≡ touched_number (2 ^ 32 - 1) there wanted }
{
    is_number_touched(u32::MAX.into(), there.into(), wanted.into()).then_some(wanted)
}

// The number that is wanted, where it is touched.
fn touched_u64(there: u64, wanted: u64) -> Option<u64>
    ensures { result ≡ touched_number (2 ^ 64 - 1) there wanted }
{
    is_number_touched(u64::MAX, there, wanted).then_some(wanted)
}

// The text that is wanted, where it is touched.
fn touched_text<'a>(there: &str, wanted: &'a str) -> Option<&'a str>
    ensures { option_copied result ≡ touched_text there.now wanted.now }
{
    is_text_touched(there, wanted).then_some(wanted)
}

// Whether a number is neither the greatest of its field nor the one that is there.
fn is_number_touched(greatest: u64, there: u64, wanted: u64) -> bool
    ensures { result ≡ is_number_touched greatest there wanted }
{
    !(wanted == greatest || wanted == there)
}

// Whether a text is neither empty nor the one that is there.
fn is_text_touched(there: &str, wanted: &str) -> bool
    ensures { result ≡ is_text_touched there.now wanted.now }
{
    !(wanted.is_empty() || wanted == there)
}

// Whether any of these fields is touched.
fn is_any(touched: &Touched<'_>) -> bool
    ensures { result ≡ is_any (touched_view touched.now) }
{
    touched.mode.is_some()
        || touched.name.is_some()
        || touched.length.is_some()
        || touched.mtime.is_some()
        || touched.gid.is_some()
}

// What is changed of the file, or the fault of the first test that refuses it.
fn change_wanted<T: Tree>(
    who: Who<'_, T::Alloc>,
    forest: &Forest<T>,
    at: NodeRef,
    file: &Node<T::Alloc>,
    clock: u32,
    touched: &Touched<'_>,
) -> Result<Change, Fault>
    ensures { let who = who_view who.entry in let touched = touched_view touched.now in result
        ≡ unless (wstat_fault who forest.now at file.now touched)
        (Ok (node_change who.user clock touched)) }
{
    let mode = wanted_mode(file, touched.mode)?;
    let name = wanted_name(who, forest, at, file, touched.name)?;
    let length = wanted_length(who, file, touched.length)?;
    if let Some(fault) = ruling_fault(who, file, touched) {
        return Err(fault);
    }
    let gid = wanted_gid(who, file, touched.gid)?;
    Ok(Change {
        name,
        mode,
        gid,
        length,
        mtime: touched.mtime,
        user: *who.user,
        clock,
    })
}

// The mode that is wanted, if one is. It is refused where the bits mean nothing, or aren't for the
// file's kind.
fn wanted_mode<A: Allocator>(file: &Node<A>, bits: Option<u32>) -> Result<Option<Mode>, Fault>
    ensures { result ≡ unless (option_and_then (mode_fault file.now) bits)
        (Ok (option_and_then mode_of bits)) }
{
    let Some(bits) = bits else {
        return Ok(None);
    };
    match Mode::from_bits(bits) {
        Some(mode) if mode.is_dir() == file.is_dir() => Ok(Some(mode)),
        _ => Err(Fault::FixedField),
    }
}

// The name that is wanted, if one is. A root keeps its name. Any other file's new name is valid,
// the user may write the directory, and nothing there has the name.
fn wanted_name<T: Tree>(
    who: Who<'_, T::Alloc>,
    forest: &Forest<T>,
    at: NodeRef,
    file: &Node<T::Alloc>,
    name: Option<&str>,
) -> Result<Option<Name>, Fault>
    ensures { let name = option_copied name.entry in result
        ≡ unless (option_and_then (name_fault (who_view who.entry) forest.now at file.now) name)
        (Ok name) }
{
    let Some(name) = name else {
        return Ok(None);
    };
    if file.parent().is_none() {
        return Err(Fault::IsRoot);
    }
    let Some(name) = Name::new(name) else {
        return Err(Fault::BadFileName);
    };
    if !may_write_parent(who, forest, at, file) {
        Err(Fault::PermissionDenied)
    } else if has_sibling(forest, at, file, &name) {
        Err(Fault::FileExists)
    } else {
        Ok(Some(name))
    }
}

// Whether the directory of the file has an entry of the name.
fn has_sibling<T: Tree>(forest: &Forest<T>, at: NodeRef, file: &Node<T::Alloc>, name: &Name) -> bool
    ensures { result ≡ has_sibling forest.now at file.now name.now }
{
    let Some(number) = file.parent() else {
        return false;
    };
    forest.child(at.beside(number), name).is_some()
}

// The length that is wanted, if one is. A directory has no length. A file's is for who may write
// it, up to [`FILE_MAX`].
fn wanted_length<A: Allocator, B: Allocator + Copy>(
    who: Who<'_, B>,
    file: &Node<A>,
    length: Option<u64>,
) -> Result<Option<u64>, Fault>
    ensures { result ≡ unless (option_and_then (length_fault (who_view who.entry) file.now) length)
        (Ok length) }
{
    let Some(size) = length else {
        return Ok(None);
    };
    if file.is_dir() {
        Err(Fault::IsDirectory)
    } else if !may(who, file, TO_WRITE) {
        Err(Fault::PermissionDenied)
    } else if size > FILE_MAX as u64 {
        Err(Fault::FileTooLarge)
    } else {
        Ok(length)
    }
}

// Mode and mtime are for who rules the file.
fn ruling_fault<A: Allocator, B: Allocator + Copy>(
    who: Who<'_, B>,
    file: &Node<A>,
    touched: &Touched<'_>,
) -> Option<Fault>
    ensures { let fault = ruling_fault (who_view who.entry) file.now in result
        ≡ option_or (option_and_then fault touched.now.mode)
        (option_and_then fault touched.now.mtime) }
{
    let is_touched = touched.mode.is_some() || touched.mtime.is_some();
    if is_touched && !rules(who, file) {
        Some(Fault::PermissionDenied)
    } else {
        None
    }
}

// The group that is wanted, if one is. It is refused where the user may not give it the file. A
// text that names no group is nobody's to give.
fn wanted_gid<A: Allocator, B: Allocator + Copy>(
    who: Who<'_, B>,
    file: &Node<A>,
    gid: Option<&str>,
) -> Result<Option<User>, Fault>
    ensures { let gid = option_copied gid.entry in result
        ≡ unless (option_and_then (gid_fault (who_view who.entry) file.now) gid) (Ok gid) }
{
    let Some(gid) = gid else {
        return Ok(None);
    };
    let Some(group) = User::new(gid) else {
        who.groups.well_formed();
        let _valid = who.user.as_str();
        return Err(Fault::PermissionDenied);
    };
    if may_give(who, file, &group) {
        Ok(Some(group))
    } else {
        Err(Fault::PermissionDenied)
    }
}

// Whether the user may give the file to the group.
fn may_give<A: Allocator, B: Allocator + Copy>(
    who: Who<'_, B>,
    file: &Node<A>,
    group: &User,
) -> bool
    ensures { result ≡ may_give (who_view who.entry) file.now group.now }
{
    file.uid() == who.user && who.groups.member(who.user, group)
        || who.groups.leads(who.user, file.gid()) && who.groups.leads(who.user, group)
}
