//! A server: a listener, and its clients.

ghost use Rattle.std.specs.Prelude.{◌≡◌, ◌*◌, []};
ghost use Rattle.std.specs.Duration.{as_nanos};
ghost use Rattle.p9_clients.specs.Serving.{AreKeyed, IsFinished};
ghost use Rattle.p9_serve.specs.Pace.{rest_of};
ghost use Rattle.p9_serve.specs.Rounds.{Admits, HasHostedRound, accepts_now, new_server};

use crate::listener::{Listener, Sockets};
use crate::pace::Pace;
use p9_clients::Clients;
use p9_guard::Guard;
use p9_tree::Tree;
use std::alloc::Allocator;
use std::io;
use std::marker::Model;
use std::net::SocketAddr;
use std::time::Duration;

/// What a round came to.
#[derive(Clone, Copy, Debug, PartialEq, Eq)]
pub struct Round {
    /// The clients that were taken in: one, or none.
    pub accepted: u64,
    /// The turns that moved bytes or answered a frame.
    pub moved: u64,
    /// The connections that were closed.
    pub closed: u64,
}

/// The clients of a guard that come to a listener. Nothing here waits: where there is nothing to
/// do, a round does nothing, and [`Server::rest`] says how long its caller may rest before the next
/// one.
#[derive(Drop)]
pub struct Server<L: Listener, T: Tree> {
    listener: L,
    clients: Clients<L::Stream, T>,
    pace: Pace,
}

impl<L: Listener, T: Tree> Model for Server<L, T> {
    ghost use Rattle.p9_serve.specs.Rounds.{Hosting};

    ghost Value = { Hosting L.Stream };

    ghost view = { λ s. record {
      running = record { serving = s.clients; pace = s.pace };
      coming = L.coming s.listener;
    } };
}

impl<A: Allocator + Copy, T: Tree> Server<Sockets<A>, T> {
    /// The address of the listener.
    pub fn local_addr(&self) -> io::Result<SocketAddr> {
        self.listener.local_addr()
    }
}

impl<L: Listener, T: Tree> Server<L, T> {
    /// A server of a guard to the clients that come to a listener. This takes no memory.
    pub fn new(alloc: T::Alloc, listener: L, guard: Guard<T>) -> Server<L, T>
        ensures running { result.running ≡ new_server (record { guard = guard; slots = [] }) }
        ensures coming { result.coming ≡ L.coming listener }
    {
        Server {
            listener,
            clients: Clients::new(alloc, guard),
            pace: Pace::new(),
        }
    }

    /// What is kept of each server: each connection's session is that of its key, and open. This
    /// does nothing when it runs; it is for a caller that has to know so.
    pub fn well_formed(&self)
        ensures { AreKeyed self.now.running.serving.slots
            self.now.running.serving.guard.state.sessions }
    {
        self.clients.well_formed();
    }

    /// How long to rest before the next round: not at all, but after many rounds in which nothing
    /// was taken in, moved or closed, as [`Pace`] has it. A request that comes meanwhile is read
    /// when the rest is over.
    pub fn rest(&self) -> Duration
        ensures { as_nanos result ≡ rest_of self.now.running.pace.quiet * 1_000 }
    {
        self.pace.rest()
    }

    /// Accepts, if there is no client, or if that is due: in the first round; in the round after one
    /// that took in or closed a client, and then, while nobody waits, after 15 rounds, 31, and 63 each
    /// time; and after each rest ([`Pace`]). One client is taken in then, if one is waiting. Then each
    /// client's connection has a turn, by rising key, at the clock reading `clock`, in seconds since
    /// 1970, modulo 2^32. Returns what came of it.
    ///
    /// A client is dropped, and not counted, where [`Clients::take_in`] drops it. An accept that
    /// fails takes in nobody, as one does that finds nobody waiting.
    pub fn round(&mut self, clock: u32) -> Round
        ensures { HasHostedRound L.Stream.remaining L.Stream.contents clock self.old self.new
            result }
    {
        let accepted = self.accept();
        let tally = self.clients.turns(clock);
        let round = Round {
            accepted,
            moved: tally.moved,
            closed: tally.closed,
        };
        self.pace.count(round);
        round
    }

    /// Closes each client's session by rising key, at the clock reading `clock`, in seconds since 1970,
    /// modulo 2^32. Drops the connections and the listener, and returns the guard.
    ///
    /// The fids of a session end by rising number. A file that one of them has open with
    /// remove-on-close is removed, and its directory is marked at `clock`, as clunk(5).
    pub fn finish(self, clock: u32) -> Guard<T>
        ensures { IsFinished clock self.running.serving result }
    {
        let Server {
            listener: _,
            clients,
            pace: _,
        } = self;
        clients.finish(clock)
    }

    // Takes in a client that waits, if the next round accepts; returns how many.
    fn accept(&mut self) -> u64
        ensures admitted { Admits (accepts_now self.old.running) self.old.running.serving
            self.new.running.serving self.old.coming self.new.coming result }
        ensures same { self.new.running.pace ≡ self.old.running.pace }
    {
        if !self.accepts() {
            return 0;
        }
        match self.listener.accept() {
            Some(stream) => u64::from(self.clients.take_in(stream)),
            None => 0,
        }
    }

    // Whether the next round accepts.
    fn accepts(&self) -> bool
        ensures { result ≡ accepts_now self.now.running }
    {
        self.pace.is_due() || self.clients.is_empty()
    }
}
