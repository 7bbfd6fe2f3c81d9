//! The answer to a create, as open(5).

ghost use Rattle.std.specs.Prelude.{◌≡◌, ◌<◌, ◌++◌, ◌∷◌, [], List, IfErr, IfOk, IsSome, OnErr, OnOk, ℕ};
ghost use Rattle.std.specs.Prelude.{length};
ghost use Rattle.std.specs.Option.{option_copied};
ghost use Rattle.p9_tree.specs.Forest.{forest_changed_at, next_of, server_at, tree_changed_at};
ghost use Rattle.p9_base.specs.NodeRef.{beside};
ghost use Rattle.p9_tree.specs.New.{new_node};
ghost use Rattle.p9_tree.specs.Node.{marked};
ghost use Rattle.p9_tree.specs.Server.{CanAdd, added};
ghost use Rattle.p9_space.specs.Channel.{Fits, trail_of};
ghost use Rattle.p9_space.specs.Table.{MountRow};
ghost use Rattle.p9_space.specs.Trail.{places_max};
ghost use Rattle.p9_fids.specs.Fid.{fid_at};
ghost use Rattle.p9_fids.specs.Held.{HeldFits};
ghost use Rattle.p9_walks.specs.Held.{SessionFits};
ghost use Rattle.p9_walks.specs.Answers.{Answers, IsRefusal, replied};
ghost use Rattle.p9_requests.specs.Answers.{create_reply};
ghost use Rattle.p9_requests.specs.Create.{asked_of, create_steps, created_in, place_in, plan_answer};
ghost use Rattle.p9_requests.specs.Create.{target_among};
ghost use Rattle.p9_step.specs.Create.{create_answer, created, entered, permitting};
ghost use Rattle.p9_step.specs.Qid.{qid_of};
ghost use Rattle.p9_step.specs.Memory.{is_done};
ghost use Rattle.p9_step.specs.State.{Session as SessionOf};

use crate::inherit::inherited;
use p9_base::{Fault, Mode, Name, NoMemory, NodeRef, Qid, User};
use p9_fids::Fid;
use p9_space::{Channels, Member, MountTable, PLACES_MAX, TO_WRITE, dir_fault, may};
use p9_step::Opening;
use p9_tree::{Forest, NEXT_MAX, New, Node, Tree};
use p9_walks::qid::new_qid;
use p9_walks::session::Session;
use p9_walks::setting::Setting;
use std::alloc::Allocator;

/// What a create asks for.
#[derive(Clone, Copy)]
pub struct NewFile<'a> {
    /// The fid that is on the directory, and goes on to the file.
    pub fid: u32,
    pub name: &'a str,
    /// The bits of the new file's mode.
    pub perm: u32,
    /// The bits of what it is opened for.
    pub mode: u8,
}

// What the bits and the name of a create mean.
#[derive(Clone, Copy)]
struct Asked {
    name: Name,
    mode: Mode,
    opening: Opening,
}

// What a create does, once nothing refuses it.
#[derive(Drop)]
struct Plan<A: Allocator + Copy> {
    // The directory where the node is made.
    target: NodeRef,
    new: New<'static>,
    // How the fid reaches the node.
    channels: Channels<A>,
    opening: Opening,
}

/// Makes a file or directory where the fid is, in the first member that permits creation, and
/// goes on to it: the fid is then open for what the mode's bits ask. It returns the new qid and the
/// session's iounit ([`Session::iounit`]).
///
/// # Errors
///
/// The first that applies is returned. The trees and the session are then unchanged.
///
/// 1. [`Fault::UnknownFid`]: the session has no such fid.
/// 2. [`Fault::FidOpen`]: the fid is open.
/// 3. [`Fault::BadFileName`]: the name isn't valid.
/// 4. [`Fault::BadOpenMode`]: the mode or `perm` means nothing.
/// 5. [`Fault::IsDirectory`]: a directory is asked for anything but to be read.
/// 6. [`Fault::PhaseError`]: no member of the fid's place exists.
/// 7. [`Fault::NotDirectory`]: no member that exists is a directory.
/// 8. [`Fault::CreationForbidden`]: no member permits creation.
/// 9. [`Fault::PhaseError`]: the first member that permits creation doesn't exist.
/// 10. [`Fault::NotDirectory`]: that member is no directory.
/// 11. [`Fault::PermissionDenied`]: the user may not write that member.
/// 12. [`Fault::FileExists`]: that member has an entry of the name.
/// 13. [`Fault::QidsUsedUp`]: the member's server has given all its numbers.
/// 14. [`Fault::PathTooDeep`]: the fid's trail has [`PLACES_MAX`] places.
/// 15. [`Fault::OutOfMemory`]: an allocation failed.
pub fn create<T: Tree>(
    setting: &Setting<T::Alloc>,
    forest: &mut Forest<T>,
    session: &mut Session<T::Alloc>,
    clock: u32,
    wanted: NewFile<'_>,
) -> Result<(Qid, u32), Fault>
    requires channels { SessionFits setting.now.table session.old }
    ensures channels { SessionFits setting.now.table session.new }
    ensures answer { let answer = create_answer setting.now forest.old session.old.session clock
        wanted.entry.fid wanted.entry.name.now wanted.entry.perm wanted.entry.mode in
        Answers answer (is_done answer) forest.old forest.new session.old.session
        session.new.session (replied create_reply result) }
{
    let Plan {
        target,
        new,
        channels,
        opening,
    } = planned(setting, forest, session, clock, wanted)?;
    let qid = add_to(forest, target, &new)?;
    enter(session, wanted.fid, channels, opening);
    Ok((qid, session.iounit()))
}

// What the create does, or why it is refused.
fn planned<T: Tree>(
    setting: &Setting<T::Alloc>,
    forest: &Forest<T>,
    session: &Session<T::Alloc>,
    clock: u32,
    wanted: NewFile<'_>,
) -> Result<Plan<T::Alloc>, Fault>
    requires { SessionFits setting.now.table session.now }
    ensures there { OnOk result (IsSome (fid_at wanted.entry.fid session.now.session.fids)) }
    ensures fits { IfOk result (λ plan. Fits setting.now.table plan.channels) }
    ensures adds { IfOk result (λ plan. let server = server_at plan.target.server forest.now in
        CanAdd server plan.target.number (new_node server.next plan.target.number plan.new)) }
    ensures ok { let answer = create_steps setting.now forest.now session.now.session clock
        wanted.entry.fid wanted.entry.name.now wanted.entry.perm wanted.entry.mode in
        IfOk result (λ plan. answer ≡ plan_answer forest.now session.now.session wanted.entry.fid
        plan.target plan.new (trail_of plan.channels) plan.opening) }
    ensures err { let answer = create_steps setting.now forest.now session.now.session clock
        wanted.entry.fid wanted.entry.name.now wanted.entry.perm wanted.entry.mode in
        IfErr result (λ fault. IsRefusal answer (is_done answer) fault) }
{
    let Some(held) = session.fids.get(wanted.fid) else {
        return Err(Fault::UnknownFid);
    };
    if held.opened.is_some() {
        return Err(Fault::FidOpen);
    }
    let asked = asked_of(wanted)?;
    let members = held.channels.members(&setting.table);
    let target = target_among(forest, members.as_slice())?;
    plan_in(setting, forest, held, clock, asked, target)
}

// What is asked for, or why that means nothing.
fn asked_of(wanted: NewFile<'_>) -> Result<Asked, Fault>
    ensures { result ≡ asked_of wanted.entry.name.now wanted.entry.perm wanted.entry.mode }
{
    let Some(name) = Name::new(wanted.name) else {
        return Err(Fault::BadFileName);
    };
    let Some(opening) = Opening::from_bits(wanted.mode) else {
        return Err(Fault::BadOpenMode);
    };
    let Some(mode) = Mode::from_bits(wanted.perm) else {
        return Err(Fault::BadOpenMode);
    };
    if mode.is_dir() && !opening.is_plain_read() {
        return Err(Fault::IsDirectory);
    }
    Ok(Asked {
        name,
        mode,
        opening,
    })
}

// The directory where a node is to be made, among the members that are there.
fn target_among<T: Tree>(forest: &Forest<T>, members: &[Member]) -> Result<NodeRef, Fault>
    ensures { result ≡ target_among forest.now members.now }
{
    if let Some(fault) = dir_fault(forest, members) {
        return Err(fault);
    }
    permitting(members)
        .map(|member| member.node)
        .ok_or(Fault::CreationForbidden)
}

// The first member that permits creation.
fn permitting(members: &[Member]) -> Option<&Member>
    ensures { option_copied result ≡ permitting members.now }
{
    members.iter().find(|member| member.create)
}

// What the create does in this directory, or why it is refused there.
fn plan_in<T: Tree>(
    setting: &Setting<T::Alloc>,
    forest: &Forest<T>,
    held: &Fid<T::Alloc>,
    clock: u32,
    asked: Asked,
    target: NodeRef,
) -> Result<Plan<T::Alloc>, Fault>
    requires { HeldFits setting.now.table held.now }
    ensures fits { IfOk result (λ plan. Fits setting.now.table plan.channels) }
    ensures adds { IfOk result (λ plan. let server = server_at plan.target.server forest.now in
        CanAdd server plan.target.number (new_node server.next plan.target.number plan.new)) }
    ensures ok { (session : SessionOf) (fid : ℕ) → IfOk result
        (λ plan. created_in setting.now forest.now session clock fid held.now.fid asked target
        ≡ plan_answer forest.now session fid plan.target plan.new (trail_of plan.channels)
        plan.opening) }
    ensures err { (session : SessionOf) (fid : ℕ) → IfErr result
        (λ fault. let answer = created_in setting.now forest.now session clock fid held.now.fid asked
        target in IsRefusal answer (is_done answer) fault) }
{
    let Some(dir) = forest.node(target) else {
        return Err(Fault::PhaseError);
    };
    let place = place_in(setting, forest, held, &asked.name, target, dir)?;
    let channels = channels_to(&setting.table, &held.channels, place)?;
    Ok(Plan {
        target,
        new: new_in(dir, asked, held.user, clock),
        channels,
        opening: asked.opening,
    })
}

// Where a node of the name comes to be, that the fid's user makes in the directory, or why the user
// can't.
fn place_in<T: Tree>(
    setting: &Setting<T::Alloc>,
    forest: &Forest<T>,
    held: &Fid<T::Alloc>,
    name: &Name,
    target: NodeRef,
    dir: &Node<T::Alloc>,
) -> Result<NodeRef, Fault>
    ensures { result ≡ place_in setting.now forest.now held.now.fid name.now target dir.now }
{
    let next = forest.next_of(target.server);
    if !dir.is_dir() {
        Err(Fault::NotDirectory)
    } else if !may(setting.who(&held.user), dir, TO_WRITE) {
        Err(Fault::PermissionDenied)
    } else if forest.child(target, name).is_some() {
        Err(Fault::FileExists)
    } else if next >= NEXT_MAX {
        Err(Fault::QidsUsedUp)
    } else if held.channels.trail().len() >= PLACES_MAX {
        Err(Fault::PathTooDeep)
    } else {
        Ok(target.beside(next))
    }
}

// What the user's new node in the directory is made of: it is of the directory's group.
fn new_in<A: Allocator>(dir: &Node<A>, asked: Asked, user: User, clock: u32) -> New<'static>
    ensures { new_node 0 dir.now.number result
        ≡ created user clock 0 dir.now asked.name asked.mode }
{
    New {
        name: asked.name,
        mode: inherited(dir.mode().permissions, asked.mode),
        uid: user,
        gid: *dir.gid(),
        muid: user,
        atime: clock,
        mtime: clock,
        bytes: &[],
    }
}

// Channels of their own that go on from these to a place.
fn channels_to<A: Allocator + Copy>(
    table: &MountTable<A>,
    channels: &Channels<A>,
    place: NodeRef,
) -> Result<Channels<A>, NoMemory>
    requires fits { Fits table.now channels.now }
    requires places { length (trail_of channels.now) < places_max }
    ensures trail { IfOk result (λ longer. trail_of longer ≡ trail_of channels.now ++ place ∷ []) }
    ensures fits { IfOk result (λ longer. Fits table.now longer) }
{
    let mut longer = channels.copy()?;
    longer.push(table, place)?;
    Ok(longer)
}

// Makes the node in the directory and marks that, and returns the node's qid.
fn add_to<T: Tree>(forest: &mut Forest<T>, target: NodeRef, new: &New<'_>) -> Result<Qid, NoMemory>
    requires { let server = server_at target.server forest.old in
        CanAdd server target.number (new_node server.next target.number new.now) }
    ensures ok { OnOk result (forest.new ≡ forest_changed_at target
        (marked new.now.muid new.now.mtime)
        (tree_changed_at target.server (λ s. added s (new_node s.next target.number new.now))
        forest.old)) }
    ensures qid { let next = next_of target.server forest.old in
        IfOk result (λ qid. qid ≡ qid_of (beside target next)
        (new_node next target.number new.now)) }
    ensures err { OnErr result (forest.new ≡ forest.old) }
{
    let at = forest.add(target, new)?;
    forest.bump(target, new.muid, new.mtime);
    Ok(new_qid(at, new.mode))
}

// Takes the fid to where the channels lead, and there it is open.
fn enter<A: Allocator + Copy>(
    session: &mut Session<A>,
    fid: u32,
    channels: Channels<A>,
    opening: Opening,
)
    requires { IsSome (fid_at fid session.old.session.fids) }
    ensures entered { session.new.session
        ≡ entered fid (trail_of channels) opening session.old.session }
    ensures channels { (table : List MountRow) → SessionFits table session.old →
        Fits table channels → SessionFits table session.new }
{
    session.fids.open_at(fid, channels, opening.opened());
}
