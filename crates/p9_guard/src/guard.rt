//! The guard: an exporter, what it hides, and its verified certificate.

ghost use Rattle.std.specs.Prelude.{◌≡◌, ◌≤◌, ◌↔◌, [], ◌∷◌, Err, None, false, IfErr, IfOk, IsSome};
ghost use Rattle.std.specs.Prelude.{IfSome, IsTrue, OnErr, OnOk, length, map, take, unwrap_or};
ghost use Rattle.p9_tree.specs.Journal.{IsSettled, IsSynced, Keeps, KeepsIfAny};
ghost use Rattle.p9_wire.specs.Frame.{is_frame, msize_max};
ghost use Rattle.p9_step.specs.Event.{Open, Message, Close};
ghost use Rattle.p9_step.specs.Laws.{reply_max};
ghost use Rattle.p9_step.specs.Memory.{is_no_memory_reply};
ghost use Rattle.p9_step.specs.State.{session_at};
ghost use Rattle.p9_cert.specs.Gap.{first_gap};
ghost use Rattle.p9_cert.specs.Policy.{policy_of};
ghost use Rattle.p9_export.specs.declared.export.OpenError.TheVariants.{Live};
ghost use Rattle.p9_export.specs.Room.{reply_room};
ghost use Rattle.p9_guard_laws.specs.Guarded.{IsGuardedState};
ghost use Rattle.p9_guard.specs.Guard.{gap_of, new_guard};
ghost use Rattle.p9_guard.specs.Headline.{IsPromised};
ghost use Rattle.p9_guard.specs.Marks.{is_refused};

use crate::cause::Cause;
use p9_base::{NoMemory, NodeRef};
use p9_cert::{Certificate, verify};
use p9_export::{Export, OpenError};
use p9_space::MountTable;
use p9_tree::{Forest, Tree, Unsettled};
use p9_world::World;
use std::marker::Model;

/// An exporter that strangers may use: a certificate was verified over its world and its mount
/// table, so what is inside the world's hidden directories is out of reach.
///
/// It keeps, besides the exporter, the hidden directories, the certificate, and the next number
/// that each server had when the guard was made.
#[derive(Drop)]
pub struct Guard<T: Tree> {
    export: Export<T>,
    hidden: Vec<NodeRef, T::Alloc>,
    certificate: Certificate<T::Alloc>,
    base: Vec<u64, T::Alloc>,
}

impl<T: Tree> Model for Guard<T> {
    ghost use Rattle.p9_guard_laws.specs.Guarded.{IsGuardedState};
    ghost use Rattle.p9_guard.specs.Guard.{Guarded};

    ghost Value = { Guarded };

    ghost view = { λ g. record {
      state = g.export;
      hidden = g.hidden.items;
      start = record { rows = g.certificate; next = g.base.items };
    } };

    ghost invariant = { λ g. IsGuardedState g.hidden.items
        (record { rows = g.certificate; next = g.base.items }) g.export };
}

impl<T: Tree> Guard<T> {
    /// A guard of the world's trees, users, groups and hidden directories and of the mount table,
    /// without sessions.
    ///
    /// A certificate that [`verify`] refuses is [`Cause::Gap`], with the same gap. An allocation
    /// that fails is [`Cause::NoMemory`]. Both give the world and the table back unchanged, and
    /// drop the certificate.
    pub fn new(
        world: World<T>,
        table: MountTable<T::Alloc>,
        certificate: Certificate<T::Alloc>,
    ) -> Result<Guard<T>, (World<T>, MountTable<T::Alloc>, Cause)>
        ensures ok { IfOk result (λ guard. guard ≡ new_guard world table certificate) }
        ensures verified { OnOk result (first_gap (policy_of world) world.forest table certificate
            ≡ None) }
        ensures back { IfErr result (λ refused. (refused.0 ≡ world) × (refused.1 ≡ table)) }
        ensures gap { IfErr result (λ refused. gap_of refused.2
            ≡ first_gap (policy_of world) world.forest table certificate) }
    {
        match checked_numbers(&world, &table, &certificate) {
            Ok(base) => Ok(Guard::begin(world, table, certificate, base)),
            Err(cause) => Err((world, table, cause)),
        }
    }

    // The guard of a certificate that was verified, and of each server's next number.
    fn begin(
        world: World<T>,
        table: MountTable<T::Alloc>,
        certificate: Certificate<T::Alloc>,
        base: Vec<u64, T::Alloc>,
    ) -> Guard<T>
        requires verified { first_gap (policy_of world) world.forest table certificate ≡ None }
        requires base { base.items ≡ map (λ s. s.next) world.forest }
        ensures { result ≡ new_guard world table certificate }
    {
        world.well_formed();
        world.forest.well_formed();
        let World {
            forest,
            users,
            groups,
            hidden,
            ..
        } = world;
        let export = Export::new(forest, users, groups, table);
        export.well_formed();
        Guard {
            export,
            hidden,
            certificate,
            base,
        }
    }

    /// What is kept of each guard: its state is guarded by the certificate that it began with, as
    /// that has grown since. This does nothing when it runs; it is for a caller that has to know
    /// so.
    pub fn well_formed(&self)
        ensures { IsGuardedState self.now.hidden self.now.start self.now.state }
    {
        let _hidden = &self.hidden;
    }

    /// Whether a session of this name is open.
    pub fn live(&self, name: u32) -> bool
        ensures { IsTrue result ↔ IsSome (session_at name self.now.state.sessions) }
    {
        self.export.live(name)
    }

    /// The most bytes that a reply to the session of this name has: its msize, and 43 before a
    /// version. It is `None` where no session of this name is open.
    pub fn reply_max(&self, name: u32) -> Option<usize>
        ensures max { result ≡ reply_room name self.now.state }
        ensures live { IsSome result ↔ IsSome (session_at name self.now.state.sessions) }
        ensures small { IfSome result (λ size. size ≤ msize_max) }
    {
        self.export.reply_max(name)
    }

    /// Opens a session.
    ///
    /// A session of this name that is open is [`OpenError::Live`]; an allocation that fails is
    /// [`OpenError::NoMemory`]. Both change nothing.
    pub fn open(&mut self, name: u32) -> Result<(), OpenError>
        ensures hidden { self.new.hidden ≡ self.old.hidden }
        ensures start { self.new.start ≡ self.old.start }
        ensures live { (result ≡ Err Live) ↔ IsSome (session_at name self.old.state.sessions) }
        ensures promised { IsPromised self.old.hidden self.old.state
            ((Open name, is_refused result) ∷ []) self.new.state [] }
        ensures unchanged { OnErr result (self.new ≡ self.old) }
    {
        self.export.open(name)
    }

    /// Answers one frame of an open session: writes the reply at the front of the buffer, and
    /// returns its length, which is no more than the session's msize, and before a version than 43.
    /// What the buffer holds after the reply is undefined, and is not to be handed on. The buffer
    /// has as many bytes as [`Guard::reply_max`] says. `clock` is the reading of the clock, in seconds
    /// since 1970, modulo 2^32.
    ///
    /// Every frame gets exactly one reply. Where that is [`p9_base::Fault::OutOfMemory`], the guard
    /// is unchanged. Only a walk, a create, a write or a wstat that nothing else refuses is
    /// answered so, or an attach that no test refuses that looks at no file.
    pub fn answer(&mut self, name: u32, frame: &[u8], clock: u32, reply: &mut [u8]) -> usize
        requires live { IsSome (session_at name self.old.state.sessions) }
        requires whole { IsTrue (is_frame frame.now) }
        requires room { unwrap_or (reply_room name self.old.state) 0 ≤ length reply.old }
        ensures within { result ≤ length reply.old }
        ensures short { IfSome (session_at name self.old.state.sessions) (λ session. result
            ≤ reply_max session) }
        ensures hidden { self.new.hidden ≡ self.old.hidden }
        ensures start { self.new.start ≡ self.old.start }
        ensures promised { IsPromised self.old.hidden self.old.state
            ((Message name frame.now clock, is_no_memory_reply frame.now (take result reply.new))
            ∷ []) self.new.state (take result reply.new) }
        ensures unchanged { IsTrue (is_no_memory_reply frame.now (take result reply.new))
            → self.new ≡ self.old }
    {
        self.export.message(name, frame, clock, reply)
    }

    /// Closes a session. `clock` is the reading of the clock, in seconds since 1970, modulo 2^32.
    ///
    /// The session's fids end by rising number. A file that one of them has open with
    /// remove-on-close is removed, and its directory is marked at `clock`, as clunk(5).
    pub fn close(&mut self, name: u32, clock: u32)
        requires { IsSome (session_at name self.old.state.sessions) }
        ensures hidden { self.new.hidden ≡ self.old.hidden }
        ensures start { self.new.start ≡ self.old.start }
        ensures promised { IsPromised self.old.hidden self.old.state
            ((Close name clock, false) ∷ []) self.new.state [] }
    {
        self.export.close(name, clock)
    }

    /// The trees.
    pub fn forest(&self) -> &Forest<T>
        ensures { result.now ≡ self.now.state.forest }
    {
        self.export.forest()
    }

    /// Notes all changes of the trees from now on in the journal, as [`Forest::keep`].
    pub fn keep(&mut self, journal: T::Journal)
        requires { Keeps T.Journal.is_whole T.Journal.stands_for journal self.old.state.forest }
        ensures { self.new ≡ self.old }
    {
        self.export.keep(journal);
    }

    /// Takes the journal out, as [`Forest::take_journal`].
    pub fn take_journal(&mut self) -> Option<T::Journal>
        ensures same { self.new ≡ self.old }
        ensures kept { KeepsIfAny T.Journal.is_whole T.Journal.stands_for result
            self.old.state.forest }
    {
        self.export.take_journal()
    }

    /// Bounds what the journal holds in memory, as [`Forest::relieve`].
    pub fn relieve(&mut self)
        ensures { self.new ≡ self.old }
    {
        self.export.relieve();
    }

    /// Makes all changes of the trees outlast the process, as [`Forest::settle`].
    pub fn settle(&mut self) -> Result<(), Unsettled>
        ensures same { self.new ≡ self.old }
        ensures settled { OnOk result (IsSettled T.Journal.is_whole T.Journal.stands_for
            T.Journal.may_stay self.new.state.forest) }
    {
        self.export.settle()
    }

    /// Makes all changes of the trees outlast the machine, as [`Forest::sync`].
    pub fn sync(&mut self) -> Result<(), Unsettled>
        ensures same { self.new ≡ self.old }
        ensures synced { OnOk result (IsSynced T.Journal.is_whole T.Journal.stands_for
            T.Journal.may_stay T.Journal.may_stand self.new.state.forest) }
    {
        self.export.sync()
    }
}

// The next number of each server, where the certificate is verified.
fn checked_numbers<T: Tree>(
    world: &World<T>,
    table: &MountTable<T::Alloc>,
    certificate: &Certificate<T::Alloc>,
) -> Result<Vec<u64, T::Alloc>, Cause>
    ensures ok { IfOk result (λ base. base.items ≡ map (λ s. s.next) world.now.forest) }
    ensures verified { OnOk result
        (first_gap (policy_of world.now) world.now.forest table.now certificate.now ≡ None) }
    ensures gap { IfErr result (λ cause. gap_of cause
        ≡ first_gap (policy_of world.now) world.now.forest table.now certificate.now) }
{
    match verify(world, table, certificate) {
        Ok(()) => Ok(next_numbers(*world.users.allocator(), &world.forest)?),
        Err(gap) => Err(Cause::Gap(gap)),
    }
}

// The next number of each server.
fn next_numbers<T: Tree>(
    alloc: T::Alloc,
    forest: &Forest<T>,
) -> Result<Vec<u64, T::Alloc>, NoMemory>
    ensures { IfOk result (λ base. base.items ≡ map (λ s. s.next) forest.now) }
{
    let mut base = Vec::new(alloc);
    for tree in forest.trees() {
        base.push(tree.next())?;
    }
    Ok(base)
}
