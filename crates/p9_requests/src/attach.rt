//! The answer to an attach, as attach(5).

ghost use Rattle.std.specs.Prelude.{◌≡◌, ◌==◌, ℕ, List, Err, IfErr, IfOk, IfSome, None, Ok, OnOk};
ghost use Rattle.std.specs.Prelude.{Some, [], false, is_some, map, true};
ghost use Rattle.std.specs.Option.{option_copied};
ghost use Rattle.std.specs.Str.{bytes_eq};
ghost use Rattle.p9_wire.specs.Message.{Rattach};
ghost use Rattle.p9_clean.specs.Path.{cleaned_elements};
ghost use Rattle.p9_fids.specs.Fid.{nofid, put_fault};
ghost use Rattle.p9_step.specs.Answer.{Answer};
ghost use Rattle.p9_step.specs.Attach.{attach_answer, attach_walk, attached, is_attach_name};
ghost use Rattle.p9_step.specs.Attach.{listed_user};
ghost use Rattle.p9_step.specs.Memory.{is_beyond_session};
ghost use Rattle.p9_step.specs.State.{Session as SessionOf};
ghost use Rattle.p9_walks.specs.Held.{SessionFits};
ghost use Rattle.p9_walks.specs.Answers.{Answers, replied};
ghost use Rattle.p9_walks.specs.Reserved.{IsAttachRoom, Leads, attach_rest, attach_tested};
ghost use Rattle.p9_walks.specs.Reserved.{attach_with_memory, unkept};

use p9_base::{Fault, NOFID, NodeRef, Qid, User};
use p9_clean::cleaned_elements;
use p9_fids::Fid;
use p9_space::{Channels, ROOT_PLACE, Way, advance_on};
use p9_tree::{Forest, Tree};
use p9_walks::qid::qid_of;
use p9_walks::session::Session;
use p9_walks::setting::Setting;
use std::alloc::Allocator;

// Reserves memory for an attach, and returns the names of its path; or returns `None`, where an
// allocation fails or where a test that looks at no file refuses the attach. The session is
// unchanged then.
//
// The fid is added to the session, to keep its place.
fn reserve_attach<'a, A: Allocator + Copy>(
    setting: &Setting<A>,
    session: &mut Session<A>,
    fid: u32,
    afid: u32,
    uname: &str,
    aname: &'a str,
) -> Option<Vec<&'a str, A>>
    ensures before { unkept (is_some result) fid session.new.session ≡ session.old.session }
    ensures channels { SessionFits setting.now.table session.old →
        SessionFits setting.now.table session.new }
    ensures room { IfSome result (λ names. IsAttachRoom setting.now fid afid uname.now aname.now
        session.old.session session.new.session (map (λ n. n.now) names.items)) }
{
    let Ok(user) = attach_user(setting, session, fid, afid, uname, aname) else {
        return None;
    };
    let Ok(names) = cleaned_elements(setting.alloc, aname) else {
        return None;
    };
    let Ok(channels) = Channels::filled(setting.alloc, &setting.table, ROOT_PLACE, 1) else {
        return None;
    };
    let kept = Fid {
        user,
        channels,
        opened: None,
    };
    let Ok(()) = session.fids.add(fid, kept) else {
        return None;
    };
    Some(names)
}

/// Makes a fid for a directory of the name space, held by a listed user: the root, or the one that
/// the attach name leads to. `..` from there stays there.
///
/// The first that applies refuses, and the session is unchanged: the fid can't be added
/// ([`p9_fids::FidTable::put_fault`]); an afid is given, [`Fault::NoAuthentication`]; the user isn't
/// listed, [`Fault::UnknownUser`]; the attach name is neither empty nor begins with a slash,
/// [`Fault::UnknownAttachName`]; an allocation fails, [`Fault::OutOfMemory`]; the root place has no
/// file, [`Fault::PhaseError`]; a step of the user's walk along the cleaned name is refused
/// ([`p9_space::find_arrival_on`]); the file there is no directory, [`Fault::NotDirectory`]. No memory
/// is allocated once a file is looked at.
pub fn attach<T: Tree>(
    setting: &Setting<T::Alloc>,
    forest: &Forest<T>,
    session: &mut Session<T::Alloc>,
    fid: u32,
    afid: u32,
    uname: &str,
    aname: &str,
) -> Result<Qid, Fault>
    requires channels { SessionFits setting.now.table session.old }
    ensures channels { SessionFits setting.now.table session.new }
    ensures answer { let answer = attach_answer setting.now forest.now session.old.session fid afid
        uname.now aname.now in Answers answer (is_beyond_session answer) forest.now forest.now
        session.old.session session.new.session (replied Rattach result) }
{
    let names = reserve_attach(setting, session, fid, afid, uname, aname);
    attach_reserved(setting, forest, session, names, fid, afid, uname, aname)
}

// The answer to an attach, for which these names were reserved. Where there are none, what would
// look at a file is refused, and that is [`Fault::OutOfMemory`]. At a refusal the session is as it
// was before memory was reserved.
fn attach_reserved<T: Tree>(
    setting: &Setting<T::Alloc>,
    forest: &Forest<T>,
    session: &mut Session<T::Alloc>,
    names: Option<Vec<&str, T::Alloc>>,
    fid: u32,
    afid: u32,
    uname: &str,
    aname: &str,
) -> Result<Qid, Fault>
    requires channels { SessionFits setting.now.table session.old }
    requires room { IfSome names (λ names. IsAttachRoom setting.now fid afid uname.now aname.now
        (unkept true fid session.old.session) session.old.session (map (λ n. n.now) names.items)) }
    ensures channels { SessionFits setting.now.table session.new }
    ensures answer { let before = unkept (is_some names.entry) fid session.old.session in
        Answers (attach_with_memory (is_some names.entry) setting.now forest.now before fid afid
        uname.now aname.now) false forest.now forest.now before session.new.session
        (replied Rattach result) }
{
    match names {
        Some(names) => attach_into(setting, forest, session, &names, fid, afid, uname, aname),
        None => match attach_user(setting, session, fid, afid, uname, aname) {
            Ok(_) => Err(Fault::OutOfMemory),
            Err(fault) => Err(fault),
        },
    }
}

// The user of an attach, or the fault of the tests that look at no file.
fn attach_user<A: Allocator + Copy>(
    setting: &Setting<A>,
    session: &Session<A>,
    fid: u32,
    afid: u32,
    uname: &str,
    aname: &str,
) -> Result<User, Fault>
    ensures free { OnOk result (put_fault fid session.now.session.fids ≡ None) }
    ensures plain { OnOk result ((afid == nofid) ≡ true) }
    ensures listed { IfOk result (λ user. listed_user uname.now setting.now.users ≡ Some user) }
    ensures named { OnOk result (is_attach_name aname.now ≡ true) }
    ensures err { IfErr result (λ fault. (rest : List ℕ → Answer) → attach_tested setting.now
        session.now.session fid afid uname.now aname.now rest ≡ Err fault) }
{
    if let Some(fault) = session.fids.put_fault(fid) {
        return Err(fault);
    }
    if afid != NOFID {
        return Err(Fault::NoAuthentication);
    }
    let Some(user) = listed(uname, &setting.users) else {
        return Err(Fault::UnknownUser);
    };
    if !is_attach_name(aname) {
        return Err(Fault::UnknownAttachName);
    }
    Ok(*user)
}

// The attach, where its fid keeps a place.
fn attach_into<T: Tree>(
    setting: &Setting<T::Alloc>,
    forest: &Forest<T>,
    session: &mut Session<T::Alloc>,
    names: &[&str],
    fid: u32,
    afid: u32,
    uname: &str,
    aname: &str,
) -> Result<Qid, Fault>
    requires channels { SessionFits setting.now.table session.old }
    requires room { IsAttachRoom setting.now fid afid uname.now aname.now
        (unkept true fid session.old.session) session.old.session (map (λ n. n.now) names.now) }
    ensures channels { SessionFits setting.now.table session.new }
    ensures answer { let before = unkept true fid session.old.session in
        Answers (attach_answer setting.now forest.now before fid afid uname.now aname.now) false
        forest.now forest.now before session.new.session (replied Rattach result) }
{
    let user = session.fids.get(fid).unwrap().user;
    match attach_to(setting, forest, &user, names) {
        Ok((place, qid)) => {
            session.fids.follow(fid, &Way::at(&setting.table, place));
            Ok(qid)
        }
        Err(fault) => {
            let _ = session.fids.take(fid);
            Err(fault)
        }
    }
}

// Whether the name is empty, or a path from the root of the name space.
fn is_attach_name(aname: &str) -> bool
    ensures { result ≡ is_attach_name aname.now }
{
    aname.is_empty() || aname.starts_with('/')
}

// The place that the names lead the user to, and the qid of its file. This takes no memory.
fn attach_to<T: Tree>(
    setting: &Setting<T::Alloc>,
    forest: &Forest<T>,
    user: &User,
    names: &[&str],
) -> Result<(NodeRef, Qid), Fault>
    ensures ok { (aname : List ℕ) → map (λ n. n.now) names.now ≡ cleaned_elements aname →
        IfOk result (λ found. (session : SessionOf) (fid : ℕ) →
        attach_rest setting.now forest.now session fid aname user.now ≡ Ok (record {
          changes = [];
          session = attached fid user.now found.0 session;
          reply = Rattach found.1;
        })) }
    ensures err { (aname : List ℕ) → map (λ n. n.now) names.now ≡ cleaned_elements aname →
        IfErr result (λ fault. (session : SessionOf) (fid : ℕ) →
        attach_rest setting.now forest.now session fid aname user.now ≡ Err fault) }
{
    if forest.node(setting.table.file(ROOT_PLACE)).is_none() {
        return Err(Fault::PhaseError);
    }
    let place = walk_to(setting, forest, user, names)?;
    let at = setting.table.file(place);
    let Some(file) = forest.node(at) else {
        return Err(Fault::PhaseError);
    };
    if !file.is_dir() {
        return Err(Fault::NotDirectory);
    }
    forest.well_formed();
    Ok((place, qid_of(at, file)))
}

// The place that the names lead the user to from the root.
fn walk_to<T: Tree>(
    setting: &Setting<T::Alloc>,
    forest: &Forest<T>,
    user: &User,
    names: &[&str],
) -> Result<NodeRef, Fault>
    ensures ok { (aname : List ℕ) → map (λ n. n.now) names.now ≡ cleaned_elements aname →
        IfOk result (λ place. Leads setting.now forest.now user.now aname place) }
    ensures err { (aname : List ℕ) → map (λ n. n.now) names.now ≡ cleaned_elements aname →
        IfErr result (λ fault. attach_walk setting.now forest.now user.now aname ≡ Err fault) }
{
    let mut way = Way::at(&setting.table, ROOT_PLACE);
    advance_on(
        forest,
        &setting.table,
        &mut way,
        names,
        Some(setting.who(user)),
    )?;
    Ok(way.here())
}

// The listed user of this name.
fn listed<'a>(uname: &str, users: &'a [User]) -> Option<&'a User>
    ensures { option_copied result ≡ listed_user uname.now users.now }
{
    users.iter().find(|user| is_named(user, uname))
}

fn is_named(user: &User, uname: &str) -> bool
    ensures { result ≡ bytes_eq user.now uname.now }
{
    user.as_str() == uname
}
