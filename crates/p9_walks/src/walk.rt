//! The answer to a walk, as walk(5).

ghost use Rattle.std.specs.Prelude.{◌≡◌, ◌≤◌, ℕ, List, Err, None, Some, IfSome};
ghost use Rattle.std.specs.Prelude.{false, is_some, length};
ghost use Rattle.p9_fids.specs.Fid.{Fid as FidOf, fid_at};
ghost use Rattle.p9_space.specs.Channel.{Fits, row_position, trail_of};
ghost use Rattle.p9_space.specs.Table.{MountRow};
ghost use Rattle.p9_space.specs.Trail.{here, places_max, stepped};
ghost use Rattle.p9_tree.specs.Forest.{node_of};
ghost use Rattle.p9_tree.specs.Server.{Server};
ghost use Rattle.p9_wire.specs.Fields.{elements_max};
ghost use Rattle.p9_wire.specs.Message.{Rwalk};
ghost use Rattle.p9_walks.specs.Held.{SessionFits, WalkFits};
ghost use Rattle.p9_walks.specs.Answers.{Answers, replied};
ghost use Rattle.p9_walks.specs.Reserved.{IsWalkRoom, most_places, unreserved, with_memory};
ghost use Rattle.p9_step.specs.Memory.{is_done};
ghost use Rattle.p9_step.specs.Qid.{qid_of};
ghost use Rattle.p9_step.specs.State.{Session as SessionOf};
ghost use Rattle.p9_step.specs.Walk.{moved, newfid_fault, walk_answer, walk_outcome, walked};

use crate::qid::qid_of;
use crate::session::Session;
use crate::setting::Setting;
use p9_base::{Fault, NOFID, Qid, User};
use p9_fids::Fid;
use p9_space::{Arrival, Channels, PLACES_MAX, ROOT_PLACE, Way, find_arrival_on};
use p9_tree::{Forest, Tree};
use p9_wire::{Names, Qids};
use std::alloc::Allocator;
use std::marker::Model;

// What was reserved for where a walk leads.
#[derive(Drop)]
enum Room<A: Allocator + Copy> {
    // newfid was added to the session, and has room for its places.
    Added,
    // Channels with room for the places of the fid itself.
    Channels(Channels<A>),
}

// Reserves memory for a walk along so many names, or returns `None`, where an allocation fails or
// where the session refuses the walk. The session is unchanged then.
//
// Where newfid is another fid, it is added to the session, to keep its place.
fn reserve_walk<A: Allocator + Copy>(
    setting: &Setting<A>,
    session: &mut Session<A>,
    fid: u32,
    newfid: u32,
    names: usize,
) -> Option<Room<A>>
    requires few { names ≤ elements_max }
    ensures before { unreserved result newfid session.new.session ≡ session.old.session }
    ensures channels { SessionFits setting.now.table session.old →
        SessionFits setting.now.table session.new }
    ensures room { IfSome result (IsWalkRoom setting.now.table fid newfid (most_places names)
        session.old.session session.new.session) }
{
    let held = session.fids.get(fid)?;
    if held.opened.is_some() || newfid_fault(session, fid, newfid).is_some() {
        return None;
    }
    let user = held.user;
    let trail = held.channels.trail();
    trail.well_formed();
    let count = PLACES_MAX.min(trail.len() + names);
    let Ok(channels) = Channels::filled(setting.alloc, &setting.table, ROOT_PLACE, count) else {
        return None;
    };
    if newfid == fid {
        return Some(Room::Channels(channels));
    }
    let kept = Fid {
        user,
        channels,
        opened: None,
    };
    let Ok(()) = session.fids.add(newfid, kept) else {
        return None;
    };
    Some(Room::Added)
}

/// Takes a fid along names, up to the first that is refused, and gives the qid of each file where a
/// step arrives. Where no step is refused, the fid itself goes there, or newfid is added there.
///
/// The first that applies refuses: the fid isn't there, [`Fault::UnknownFid`]; it is open,
/// [`Fault::FidOpen`]; newfid is [`NOFID`], [`Fault::UnknownFid`]; newfid is another fid and can't
/// be added ([`p9_fids::FidTable::put_fault`]); the first step is refused
/// ([`p9_space::find_arrival_on`]); an allocation failed, [`Fault::OutOfMemory`]. At a refusal the
/// session is unchanged. No memory is allocated once a file is looked at.
pub fn walk<T: Tree>(
    setting: &Setting<T::Alloc>,
    forest: &Forest<T>,
    session: &mut Session<T::Alloc>,
    fid: u32,
    newfid: u32,
    names: &Names<'_>,
) -> Result<Qids, Fault>
    requires channels { SessionFits setting.now.table session.old }
    ensures channels { SessionFits setting.now.table session.new }
    ensures answer { let answer = walk_answer setting.now forest.now session.old.session fid newfid
        names.now in Answers answer (is_done answer) forest.now forest.now session.old.session
        session.new.session (replied Rwalk result) }
{
    let room = reserve_walk(setting, session, fid, newfid, names.len());
    walk_reserved(setting, forest, session, room, fid, newfid, names)
}

// The answer to a walk, for which this was reserved. Where nothing was, a walk that nothing else
// refuses is [`Fault::OutOfMemory`]. At a refusal the session is as it was before memory was
// reserved.
fn walk_reserved<T: Tree>(
    setting: &Setting<T::Alloc>,
    forest: &Forest<T>,
    session: &mut Session<T::Alloc>,
    room: Option<Room<T::Alloc>>,
    fid: u32,
    newfid: u32,
    names: &Names<'_>,
) -> Result<Qids, Fault>
    requires channels { SessionFits setting.now.table session.old }
    requires room { let before = unreserved room newfid session.old.session in
        IfSome room (IsWalkRoom setting.now.table fid newfid (most_places (length names.now)) before
        session.old.session) }
    ensures channels { SessionFits setting.now.table session.new }
    ensures answer { let before = unreserved room newfid session.old.session in
        Answers (with_memory (is_some room) (walk_answer setting.now forest.now before fid newfid
        names.now)) false forest.now forest.now before session.new.session (replied Rwalk result) }
{
    match room {
        Some(room) => walk_into(setting, forest, session, room, fid, newfid, names),
        None => Err(walk_fault(setting, forest, session, fid, newfid, names)),
    }
}

// Why a walk is refused for which no memory was reserved.
fn walk_fault<T: Tree>(
    setting: &Setting<T::Alloc>,
    forest: &Forest<T>,
    session: &Session<T::Alloc>,
    fid: u32,
    newfid: u32,
    names: &Names<'_>,
) -> Fault
    requires { SessionFits setting.now.table session.now }
    ensures { Err result ≡ with_memory false (walk_answer setting.now forest.now session.now.session
        fid newfid names.now) }
{
    let Some(held) = session.fids.get(fid) else {
        return Fault::UnknownFid;
    };
    if held.opened.is_some() {
        return Fault::FidOpen;
    }
    if let Some(fault) = newfid_fault(session, fid, newfid) {
        return fault;
    }
    fault_of(&walk_along(setting, forest, &held.user, &held.channels, names))
}

// The fault of a walk for which no memory was reserved, by how far the names lead.
fn fault_of(walked: &Walked) -> Fault
    ensures { (fid newfid : ℕ) (v : FidOf) (session : SessionOf) → Err result
        ≡ with_memory false (walk_outcome fid newfid v session walked.now.walked) }
{
    match walked.stopped {
        None => Fault::OutOfMemory,
        Some(fault) => {
            if walked.qids.is_empty() {
                fault
            } else {
                Fault::OutOfMemory
            }
        }
    }
}

// The walk, where there is room for where it leads.
fn walk_into<T: Tree>(
    setting: &Setting<T::Alloc>,
    forest: &Forest<T>,
    session: &mut Session<T::Alloc>,
    room: Room<T::Alloc>,
    fid: u32,
    newfid: u32,
    names: &Names<'_>,
) -> Result<Qids, Fault>
    requires channels { SessionFits setting.now.table session.old }
    requires room { let before = unreserved (Some room) newfid session.old.session in
        IsWalkRoom setting.now.table fid newfid (most_places (length names.now)) before
        session.old.session room }
    ensures channels { SessionFits setting.now.table session.new }
    ensures answer { let before = unreserved (Some room) newfid session.old.session in
        Answers (walk_answer setting.now forest.now before fid newfid names.now) false forest.now
        forest.now before session.new.session (replied Rwalk result) }
{
    let held = session.fids.get(fid).unwrap();
    let walked = walk_along(setting, forest, &held.user, &held.channels, names);
    end_walk(setting, session, room, fid, newfid, walked)
}

// Why newfid can't be where the walk leads; the fid itself always can.
fn newfid_fault<A: Allocator + Copy>(session: &Session<A>, fid: u32, newfid: u32) -> Option<Fault>
    ensures { result ≡ newfid_fault fid newfid session.now.session.fids }
{
    if newfid == NOFID {
        return Some(Fault::UnknownFid);
    }
    if newfid == fid {
        return None;
    }
    session.fids.put_fault(newfid)
}

// How far names lead.
#[derive(Drop)]
struct Walked {
    // The qid of each file where a step arrived.
    qids: Qids,
    // Where the last of these steps arrived.
    way: Way,
    // Why the next step is refused, if one is.
    stopped: Option<Fault>,
}

impl Model for Walked {
    ghost use Rattle.p9_space.specs.Channel.{trail_of};
    ghost use Rattle.p9_walks.specs.Held.{HeldWalk};

    ghost Value = { HeldWalk };

    ghost view = { λ w. record {
      walked = record { qids = w.qids; trail = trail_of w.way; stopped = w.stopped };
      rows = w.way.rows;
    } };
}

// One step after another from channels, up to the first that is refused. This takes no memory.
fn walk_along<T: Tree>(
    setting: &Setting<T::Alloc>,
    forest: &Forest<T>,
    user: &User,
    start: &Channels<T::Alloc>,
    names: &Names<'_>,
) -> Walked
    requires { Fits setting.now.table start.now }
    ensures walked { result.walked
        ≡ walked setting.now forest.now user.now (trail_of start.now) names.now }
    ensures fits { WalkFits setting.now.table result }
    ensures few { length result.walked.trail ≤ most_places (length names.now) (trail_of start.now) }
{
    let mut qids = Qids::new();
    let mut way = Way::of(start);
    for name in names.as_slice() {
        match find_arrival_on(forest, &setting.table, &way, name, Some(setting.who(user))) {
            Ok(arrival) => qids.push(arrive(setting, forest, &mut way, arrival)),
            Err(fault) => {
                way.well_formed();
                return Walked {
                    qids,
                    way,
                    stopped: Some(fault),
                };
            }
        }
    }
    way.well_formed();
    Walked {
        qids,
        way,
        stopped: None,
    }
}

// Takes a step to where a file is, and gives its qid.
fn arrive<T: Tree>(
    setting: &Setting<T::Alloc>,
    forest: &Forest<T>,
    way: &mut Way,
    arrival: Arrival<'_, T::Alloc>,
) -> Qid
    requires places { length (stepped (trail_of way.old) arrival.step) ≤ places_max }
    requires row { arrival.row
        ≡ row_position (here (stepped (trail_of way.old) arrival.step)) setting.now.table }
    requires file { node_of arrival.at forest.now ≡ Some arrival.file.now }
    ensures qid { result ≡ qid_of arrival.entry.at arrival.entry.file.now }
    ensures trail { trail_of way.new ≡ stepped (trail_of way.old) arrival.entry.step }
    ensures fits { Fits setting.now.table way.old → Fits setting.now.table way.new }
{
    way.take(arrival.step, arrival.row);
    forest.well_formed();
    qid_of(arrival.at, arrival.file)
}

// A walk that is stopped at its first name is refused; one that is stopped later moves no fid.
fn end_walk<A: Allocator + Copy>(
    setting: &Setting<A>,
    session: &mut Session<A>,
    room: Room<A>,
    fid: u32,
    newfid: u32,
    walked: Walked,
) -> Result<Qids, Fault>
    requires channels { SessionFits setting.now.table session.old }
    requires walked { WalkFits setting.now.table walked }
    requires room { let before = unreserved (Some room) newfid session.old.session in
        IsWalkRoom setting.now.table fid newfid (λ trail. length walked.walked.trail) before
        session.old.session room }
    ensures channels { SessionFits setting.now.table session.new }
    ensures answer { let before = unreserved (Some room) newfid session.old.session in
        (v : FidOf) → fid_at fid before.fids ≡ Some v → (forest : List Server) →
        Answers (walk_outcome fid newfid v before walked.walked) false forest forest before
        session.new.session (replied Rwalk result) }
{
    match walked.stopped {
        None => {
            move_fid(setting, session, room, fid, newfid, &walked.way);
            Ok(walked.qids)
        }
        Some(fault) => {
            give_back(session, room, newfid);
            if walked.qids.is_empty() {
                Err(fault)
            } else {
                Ok(walked.qids)
            }
        }
    }
}

// The fid itself goes where the way leads, or newfid is there from now on.
fn move_fid<A: Allocator + Copy>(
    setting: &Setting<A>,
    session: &mut Session<A>,
    room: Room<A>,
    fid: u32,
    newfid: u32,
    way: &Way,
)
    requires channels { SessionFits setting.now.table session.old }
    requires way { Fits setting.now.table way.now }
    requires room { let before = unreserved (Some room) newfid session.old.session in
        IsWalkRoom setting.now.table fid newfid (λ trail. length (trail_of way.now)) before
        session.old.session room }
    ensures channels { SessionFits setting.now.table session.new }
    ensures moved { let before = unreserved (Some room) newfid session.old.session in
        (v : FidOf) → fid_at fid before.fids ≡ Some v →
        session.new.session ≡ moved fid newfid v (trail_of way.now) before }
{
    match room {
        Room::Added => session.fids.follow(newfid, way),
        Room::Channels(mut channels) => {
            channels.follow(way);
            session.fids.move_to(fid, channels);
        }
    }
}

// Takes the fid out again that was added to keep a place.
fn give_back<A: Allocator + Copy>(session: &mut Session<A>, room: Room<A>, newfid: u32)
    ensures before { session.new.session
        ≡ unreserved (Some room) newfid session.old.session }
    ensures channels { (table : List MountRow) → SessionFits table session.old →
        SessionFits table session.new }
{
    if let Room::Added = room {
        let _ = session.fids.take(newfid);
    }
}
