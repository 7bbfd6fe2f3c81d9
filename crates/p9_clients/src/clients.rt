//! The clients of a guard: a connection for each, with a session of its own.

ghost use Rattle.std.specs.Prelude.{◌≡◌, ◌<◌, ◌≤◌, ◌+◌, ◌^◌, [], None, count_by, length, slice_set};
ghost use Rattle.std.specs.Prelude.{IfOk, OnErr, OnOk};
ghost use Rattle.p9_tree.specs.Journal.{IsSettled, IsSynced, Keeps, KeepsIfAny};
ghost use Rattle.p9_clients.specs.Serving.{AreKeyed, EndAt, HasTurns, IsFinished, TakesIn, TurnAt};
ghost use Rattle.p9_clients.specs.Serving.{has_nobody, is_closed, is_moved, turns_of, slot_at};

use p9_conn::{Conn, Stream, Turn};
use p9_guard::Guard;
use p9_tree::{Forest, Tree, Unsettled};
use slab::Slab;
use std::alloc::Allocator;
use std::marker::Model;

/// How many turns of one round came to something.
#[derive(Clone, Copy, Debug, PartialEq, Eq)]
pub struct Tally {
    /// The turns that moved bytes or answered a frame.
    pub moved: u64,
    /// The connections that were closed.
    pub closed: u64,
}

impl Tally {
    // One turn more.
    fn with(self, turn: Option<Turn>) -> Tally
        requires moved { self.moved + 1 < 2 ^ 64 }
        requires closed { self.closed + 1 < 2 ^ 64 }
        ensures moved { result.moved ≡ self.moved + count_by is_moved (turns_of turn) }
        ensures closed { result.closed ≡ self.closed + count_by is_closed (turns_of turn) }
        ensures few_moved { result.moved ≤ self.moved + 1 }
        ensures few_closed { result.closed ≤ self.closed + 1 }
    {
        match turn {
            Some(Turn::Moved) => Tally {
                moved: self.moved + 1,
                closed: self.closed,
            },
            Some(Turn::Closed) => Tally {
                moved: self.moved,
                closed: self.closed + 1,
            },
            Some(Turn::Idle) | None => self,
        }
    }
}

/// The clients of a guard. Each has a connection in a slab, whose key is the name of its session.
/// A connection that is closed is dropped, and its key may name a new one.
#[derive(Drop)]
pub struct Clients<S, T: Tree> {
    alloc: T::Alloc,
    guard: Guard<T>,
    conns: Slab<Conn<S, T::Alloc>, T::Alloc>,
}

impl<S, T: Tree> Model for Clients<S, T> {
    ghost use Rattle.p9_clients.specs.Serving.{AreKeyed, Serving};

    ghost Value = { Serving S };

    ghost view = { λ c. record { guard = c.guard; slots = c.conns.slots } };

    ghost invariant = { λ c. AreKeyed c.conns.slots c.guard.state.sessions };
}

impl<S: Stream + Drop, T: Tree> Clients<S, T> {
    /// No clients of a guard, whose sessions stay as they are. This takes no memory.
    pub fn new(alloc: T::Alloc, guard: Guard<T>) -> Clients<S, T>
        ensures { result ≡ record { guard = guard; slots = [] } }
    {
        Clients {
            alloc,
            guard,
            conns: Slab::new(alloc),
        }
    }

    /// Whether there is no client.
    pub fn is_empty(&self) -> bool
        ensures { result ≡ has_nobody self.now }
    {
        self.conns.is_empty()
    }

    /// The allocator of the connections.
    pub fn allocator(&self) -> T::Alloc {
        self.alloc
    }

    /// What is kept of each value: each connection's session is that of its key, and open. This does
    /// nothing when it runs; it is for a caller that has to know so.
    pub fn well_formed(&self)
        ensures { AreKeyed self.now.slots self.now.guard.state.sessions }
    {
        let _conns = &self.conns;
    }

    /// The trees.
    pub fn forest(&self) -> &Forest<T>
        ensures { result.now ≡ self.now.guard.state.forest }
    {
        self.guard.forest()
    }

    /// Notes all changes of the trees from now on in the journal, as [`Forest::keep`].
    pub fn keep(&mut self, journal: T::Journal)
        requires { Keeps T.Journal.is_whole T.Journal.stands_for journal
            self.old.guard.state.forest }
        ensures { self.new ≡ self.old }
    {
        self.guard.keep(journal);
    }

    /// Takes the journal out, as [`Forest::take_journal`].
    pub fn take_journal(&mut self) -> Option<T::Journal>
        ensures same { self.new ≡ self.old }
        ensures kept { KeepsIfAny T.Journal.is_whole T.Journal.stands_for result
            self.old.guard.state.forest }
    {
        self.guard.take_journal()
    }

    /// Makes all changes of the trees outlast the process, as [`Guard::settle`].
    pub fn settle(&mut self) -> Result<(), Unsettled>
        ensures same { self.new ≡ self.old }
        ensures settled { OnOk result (IsSettled T.Journal.is_whole T.Journal.stands_for
            T.Journal.may_stay self.new.guard.state.forest) }
    {
        self.guard.settle()
    }

    /// Makes all changes of the trees outlast the machine, as [`Guard::sync`].
    pub fn sync(&mut self) -> Result<(), Unsettled>
        ensures same { self.new ≡ self.old }
        ensures synced { OnOk result (IsSynced T.Journal.is_whole T.Journal.stands_for
            T.Journal.may_stay T.Journal.may_stand self.new.guard.state.forest) }
    {
        self.guard.sync()
    }

    /// Takes in a client with its stream, and opens its session; returns whether it did.
    ///
    /// Where there is no memory for its buffers, its place or its session, where its key has more
    /// than 32 bits, or where the key names a session that is open, the stream is dropped, and
    /// nothing is changed.
    pub fn take_in(&mut self, stream: S) -> bool
        ensures { TakesIn stream self.old self.new result }
    {
        if self.conns.reserve(1).is_err() {
            return false;
        }
        let Ok(session) = u32::try_from(self.conns.vacant_key()) else {
            return false;
        };
        let Ok(conn) = Conn::new(self.alloc, stream, session) else {
            return false;
        };
        if self.guard.open(session).is_err() {
            return false;
        }
        let _key = self.conns.insert_reserved(conn);
        true
    }

    /// Gives each client's connection a turn, by rising key, at the clock reading `clock`, in seconds
    /// since 1970, modulo 2^32. A connection that is closed then is dropped. Returns how many turns
    /// moved something, and how many closed their connection.
    pub fn turns(&mut self, clock: u32) -> Tally
        ensures { HasTurns S.remaining S.contents clock self.old self.new result }
    {
        let mut tally = Tally {
            moved: 0,
            closed: 0,
        };
        for key in 0..bound(&self.conns) {
            tally = tally.with(self.turn_at(key, clock));
        }
        tally
    }

    /// Closes each client's session by rising key, at the clock reading `clock`, in seconds since 1970,
    /// modulo 2^32. Drops the connections, and returns the guard.
    ///
    /// The fids of a session end by rising number. A file that one of them has open with
    /// remove-on-close is removed, and its directory is marked at `clock`, as clunk(5).
    pub fn finish(mut self, clock: u32) -> Guard<T>
        ensures { IsFinished clock self result }
    {
        for key in 0..bound(&self.conns) {
            self.end_at(key, clock);
        }
        self.guard
    }

    /// Makes all changes outlast the process, as [`Guard::settle`], and then gives each client's
    /// connection a turn, as [`Clients::turns`]. A turn writes of a reply that was pending before it
    /// alone, so what goes out in these turns tells of changes that outlast the process. Where the
    /// changes can't be made to, no connection has a turn, and nothing goes out.
    pub fn settled_turns(&mut self, clock: u32) -> Result<Tally, Unsettled>
        ensures settled { OnOk result (IsSettled T.Journal.is_whole T.Journal.stands_for
            T.Journal.may_stay self.old.guard.state.forest) }
        ensures turns { IfOk result (λ tally. HasTurns S.remaining S.contents clock self.old
            self.new tally) }
        ensures err { OnErr result (self.new ≡ self.old) }
    {
        self.settle()?;
        Ok(self.turns(clock))
    }

    /// Makes all changes outlast the machine, as [`Guard::sync`], and then gives each client's
    /// connection a turn, as [`Clients::settled_turns`].
    pub fn synced_turns(&mut self, clock: u32) -> Result<Tally, Unsettled>
        ensures synced { OnOk result (IsSynced T.Journal.is_whole T.Journal.stands_for
            T.Journal.may_stay T.Journal.may_stand self.old.guard.state.forest) }
        ensures turns { IfOk result (λ tally. HasTurns S.remaining S.contents clock self.old
            self.new tally) }
        ensures err { OnErr result (self.new ≡ self.old) }
    {
        self.sync()?;
        Ok(self.turns(clock))
    }

    // A turn of the connection of this key, if there is one. Then what the journal of the trees holds
    // in memory is bounded.
    fn turn_at(&mut self, key: usize, clock: u32) -> Option<Turn>
        ensures { TurnAt S.remaining S.contents clock key (slot_at self.old.slots key) self.old
            self.new result }
    {
        let turn = self.turn_of(key, clock);
        self.relieve();
        turn
    }

    // Bounds what the journal of the trees holds in memory, as [`Guard::relieve`].
    fn relieve(&mut self)
        ensures { self.new ≡ self.old }
    {
        self.guard.relieve();
    }

    // A turn of the connection of this key, if there is one.
    fn turn_of(&mut self, key: usize, clock: u32) -> Option<Turn>
        ensures { TurnAt S.remaining S.contents clock key (slot_at self.old.slots key) self.old
            self.new result }
    {
        let conn = self.conns.get_mut(key)?;
        let turn = conn.turn(&mut self.guard, clock);
        if turn == Turn::Closed {
            drop_at(&mut self.conns, key);
        }
        Some(turn)
    }

    // Closes the session of this key, if there is a connection, and drops that.
    fn end_at(&mut self, key: usize, clock: u32)
        ensures { EndAt clock key (slot_at self.old.slots key) self.old self.new }
    {
        if let Some(conn) = self.conns.try_remove(key) {
            self.guard.close(conn.session(), clock);
        }
    }
}

// How many values have room without an allocation. No key is as great.
fn bound<C, A: Allocator>(values: &Slab<C, A>) -> usize
    ensures room { result ≡ values.now.capacity }
    ensures keys { length values.now.slots ≤ result }
{
    values.capacity()
}

// Drops the value at a key, if there is one.
fn drop_at<C: Drop, A: Allocator>(values: &mut Slab<C, A>, key: usize)
    ensures { values.new.slots ≡ slice_set values.old.slots key None }
{
    let _value = values.try_remove(key);
}
