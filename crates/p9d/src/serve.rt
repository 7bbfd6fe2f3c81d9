//! The rounds: clients are taken in at each address, and each has a turn.

use crate::accepting::Accepting;
use crate::client::Coming;
use crate::door::{Arrival, Door, Origin, close_doors, shown_origin};
use crate::end::{has_ended, is_pipe};
use crate::gate::Gated;
use crate::journal::Level;
use crate::keeper::Keeper;
use crate::kept_tree::KeptTree;
use crate::visit::{Shared, Visit};
use crate::visitors::Visitors;
use p9_guard::Guard;
use p9_serve::{Clients, Round, Tally};
use p9_shell::Failure;
use p9_tree::Unsettled;
use std::alloc::{AllocError, Global};
use std::io::{self, ErrorKind};
use std::net::SocketAddr;
use std::rc::Rc;
use std::thread;
use std::time::{Duration, SystemTime, UNIX_EPOCH};

// After so many turns that moved something the clock is read again.
const TURNS_OF_A_READING: u64 = 16;

// Why the rounds end before the standard input has.
#[derive(Drop)]
enum Stop {
    // Changes can't be kept any more.
    Unsettled,
    // The clock can't be read.
    Failed(Failure),
}

impl From<Unsettled> for Stop {
    fn from(_error: Unsettled) -> Stop {
        Stop::Unsettled
    }
}

impl From<io::Error> for Stop {
    fn from(error: io::Error) -> Stop {
        Stop::Failed(Failure::from(error))
    }
}

impl From<Stop> for Failure {
    fn from(stop: Stop) -> Failure {
        match stop {
            Stop::Unsettled => Failure::Failed,
            Stop::Failed(failure) => failure,
        }
    }
}

/// A server: its doors, and who came to them.
#[derive(Drop)]
pub(crate) struct Daemon {
    doors: Vec<Door>,
    visitors: Visitors,
    accepting: Accepting,
    // What keeps the changes, if they are kept.
    keeper: Option<Keeper>,
}

impl Daemon {
    /// A server to who comes to these doors.
    pub fn new(doors: Vec<Door>, visitors: Visitors, keeper: Option<Keeper>) -> Daemon {
        Daemon {
            doors,
            visitors,
            accepting: Accepting::new(),
            keeper,
        }
    }

    /// Serves a guard until the standard input, where that is a pipe, has ended. Then all sessions are
    /// closed. Where changes can't be kept any more it ends before any reply that tells of them.
    pub fn serve<S: Coming, T: KeptTree>(
        mut self,
        rt: &HostRuntime,
        guard: Guard<T>,
    ) -> Result<(), Failure> {
        let mut clients: Clients<S, T> = Clients::new(rt.alloc(), guard);
        let done = self.rounds(rt, &mut clients);
        let ended = self.end(rt, done, clients);
        self.close(rt);
        ended
    }

    // Serves clients until the standard input, where that is a pipe, has ended.
    fn rounds<S: Coming, T: KeptTree>(
        &mut self,
        rt: &HostRuntime,
        clients: &mut Clients<S, T>,
    ) -> Result<(), Stop> {
        let ends = is_pipe(rt);
        for _ in 0..u64::MAX {
            self.rest(rt);
            if self.is_new_second(rt)? {
                if ends && has_ended(rt) {
                    break;
                }
                self.begin_second(clients)?;
            }
            self.rounds_of_a_reading(rt.alloc(), clients)?;
            self.visitors.shared.print(rt);
        }
        Ok(())
    }

    // Rounds after one reading of the clock. They end where nothing moved, or where so many turns did.
    fn rounds_of_a_reading<S: Coming, T: KeptTree>(
        &mut self,
        alloc: Global,
        clients: &mut Clients<S, T>,
    ) -> Result<(), Unsettled> {
        let mut left = TURNS_OF_A_READING;
        for _ in 0..TURNS_OF_A_READING {
            let moved = self.round(alloc, clients)?;
            if moved == 0 || moved >= left {
                break;
            }
            left = left.saturating_sub(moved);
        }
        Ok(())
    }

    // Closes all sessions, and brings all changes to the disk, where changes could be kept so far.
    fn end<S: Coming, T: KeptTree>(
        &self,
        rt: &HostRuntime,
        done: Result<(), Stop>,
        clients: Clients<S, T>,
    ) -> Result<(), Failure> {
        let mut clients = clients;
        match (done, &self.keeper) {
            (Err(Stop::Unsettled), Some(keeper)) => {
                let failure = keeper.fail(rt, &mut clients);
                drop(clients);
                Err(failure)
            }
            (done, keeper) => {
                let mut guard = clients.finish(self.clock());
                let kept = match keeper {
                    Some(keeper) => keeper.end(rt, &mut guard),
                    None => Ok(()),
                };
                drop(guard);
                kept?;
                Ok(done?)
            }
        }
    }

    // Lets the keeper do what is due in a new second.
    fn begin_second<S: Coming, T: KeptTree>(
        &mut self,
        clients: &mut Clients<S, T>,
    ) -> Result<(), Unsettled> {
        let shared = &self.visitors.shared;
        match &mut self.keeper {
            Some(keeper) => keeper.begin_second(shared.now.get(), clients, shared),
            None => Ok(()),
        }
    }

    // Turns of the clients.
    fn turns<S: Coming, T: KeptTree>(
        &self,
        clients: &mut Clients<S, T>,
    ) -> Result<Tally, Unsettled> {
        match &self.keeper {
            Some(keeper) => keeper.turns(clients, self.clock(), &self.visitors.shared.gate),
            None => Ok(clients.turns(self.clock())),
        }
    }

    // Rests, where nothing has happened for some rounds.
    fn rest(&self, rt: &HostRuntime) {
        let length = self.accepting.rest();
        if !length.is_zero() {
            thread::sleep(rt, length);
        }
    }

    // Reads the clock. Where a second begins, clients that are late are closed.
    fn is_new_second(&mut self, rt: &HostRuntime) -> io::Result<bool> {
        let since = since_1970(rt)?;
        self.accepting.read_clock(since.subsec_millis());
        let now = since.as_secs();
        if now == self.visitors.shared.now.get() {
            return Ok(false);
        }
        self.visitors.shared.begin_second(now);
        self.visitors.forget_gone();
        self.visitors.close_late();
        Ok(true)
    }

    // The clock of the export.
    fn clock(&self) -> u32 {
        (self.visitors.shared.now.get() % 0x1_0000_0000) as u32
    }

    // A round, as that of `p9 serve`, with an accept at each door where that is due. Returns how many
    // turns moved something.
    fn round<S: Coming, T: KeptTree>(
        &mut self,
        alloc: Global,
        clients: &mut Clients<S, T>,
    ) -> Result<u64, Unsettled> {
        let accepts = self.accepting.is_due() || clients.is_empty();
        let accepted = if accepts {
            self.accept_all(alloc, clients)
        } else {
            0
        };
        let tally = self.turns(clients)?;
        let round = Round {
            accepted,
            moved: tally.moved,
            closed: tally.closed,
        };
        self.accepting.count(accepts, round);
        if tally.closed > 0 {
            self.visitors.forget_gone();
        }
        Ok(tally.moved)
    }

    // Takes in a client at each door, where one waits. Returns how many were taken in.
    fn accept_all<S: Coming, T: KeptTree>(
        &mut self,
        alloc: Global,
        clients: &mut Clients<S, T>,
    ) -> u64 {
        let mut accepted = 0u64;
        for number in 0..self.doors.len() {
            if self.accept_at(alloc, number, clients) {
                accepted = accepted.saturating_add(1);
            }
        }
        accepted
    }

    // Takes in a client at a door, where one waits.
    fn accept_at<S: Coming, T: KeptTree>(
        &mut self,
        alloc: Global,
        number: usize,
        clients: &mut Clients<S, T>,
    ) -> bool {
        let Some(door) = self.doors.get_mut(number) else {
            return false;
        };
        match door.accept() {
            Ok(arrival) => {
                door.is_failing = false;
                take_in(alloc, &mut self.visitors, (number, door), arrival, clients)
            }
            Err(error) => {
                note_failure(door, &self.visitors.shared, &error);
                false
            }
        }
    }

    // Removes the sockets of the file system, and prints what was told.
    fn close(&self, rt: &HostRuntime) {
        close_doors(rt, self.doors.as_slice());
        self.visitors.shared.print(rt);
    }
}

// Takes in a client that came to a door of this number. Returns whether it is there.
fn take_in<S: Coming, T: KeptTree>(
    alloc: Global,
    visitors: &mut Visitors,
    door: (usize, &Door),
    arrival: Arrival,
    clients: &mut Clients<S, T>,
) -> bool {
    let Arrival { peer, address } = arrival;
    let client = match admitted(alloc, visitors, door, address) {
        Ok(Some(visit)) => S::of(alloc, peer, visit, &visitors.shared, &door.1.users),
        Ok(None) => return false,
        Err(error) => Err(error),
    };
    match client {
        Ok(client) => clients.take_in(client),
        Err(AllocError) => {
            visitors
                .shared
                .tell(Level::Error, &"a client was closed: out of memory");
            false
        }
    }
}

// The visit of a client that came to a door from an address, where it is let in.
fn admitted(
    alloc: Global,
    visitors: &mut Visitors,
    door: (usize, &Door),
    address: Option<SocketAddr>,
) -> Result<Option<Rc<Visit>>, AllocError> {
    let (number, door) = door;
    let origin = match address {
        Some(address) => Origin::Ip(address.ip()),
        None => Origin::Door(number),
    };
    let from = shown_origin(alloc, address, door)?;
    visitors.admit(origin, from)
}

// Tells once that accepts fail at a door.
fn note_failure(door: &mut Door, shared: &Shared, error: &io::Error) {
    if error.kind() == ErrorKind::WouldBlock || door.is_failing {
        return;
    }
    door.is_failing = true;
    shared.tell(Level::Error, error);
}

// How long ago 1970 began. By a clock that is before 1970 no time has passed.
fn since_1970(rt: &HostRuntime) -> io::Result<Duration> {
    let clock = SystemTime::now(rt)?;
    Ok(clock.duration_since(UNIX_EPOCH).unwrap_or(Duration::ZERO))
}
