//! What keeps the changes of clients while a server runs.

use crate::counting::size_of;
use crate::gate::Gate;
use crate::journal::Level;
use crate::keeping::failed;
use crate::kept_tree::KeptTree;
use crate::visit::Shared;
use p9_conn::Stream;
use p9_folder::{Folder, forget_start};
use p9_guard::Guard;
use p9_serve::{Clients, Tally};
use p9_shell::Failure;
use p9_tree::Unsettled;
use std::fmt::{self, Display};
use std::io;

// After so many turns that moved something replies leave.
const HELD_MOST: u64 = 256;

// A journal gets no snapshot before it has so many bytes.
const FEWEST: usize = 1 << 20;

/// What keeps the changes of clients while a server runs: before a reply leaves they are in the file,
/// and after some seconds on the disk.
#[derive(Drop)]
pub(crate) struct Keeper {
    folder: Folder,
    // The seconds between two syncs. Where they are 0, each reply waits for one.
    seconds: u64,
    // The second of the last sync.
    synced: u64,
    // How many bytes the journal has before a snapshot takes its place, once that is known.
    most: Option<usize>,
}

impl Keeper {
    /// Keeps changes in a folder, and syncs them so often.
    pub fn new(folder: Folder, seconds: usize) -> Keeper {
        Keeper {
            folder,
            seconds: seconds as u64,
            synced: 0,
            most: None,
        }
    }

    /// Turns of the clients. Where a change is not in the file yet, the first ones are held: no reply
    /// leaves in them. Then all that was changed is brought into the file, or to the disk, and replies
    /// leave in the last ones. Where changes can't be kept, none leaves from then on.
    pub fn turns<S: Stream + Drop, T: KeptTree>(
        &self,
        clients: &mut Clients<S, T>,
        clock: u32,
        gate: &Gate,
    ) -> Result<Tally, Unsettled> {
        let mut held = Tally {
            moved: 0,
            closed: 0,
        };
        if !is_settled(clients) {
            gate.close();
            held = held_turns(clients, clock);
            self.keep(clients)?;
            gate.open();
        }
        Ok(both(held, self.kept_turns(clients, clock)?))
    }

    // Brings all that was changed into the file, or to the disk.
    fn keep<S: Stream + Drop, T: KeptTree>(
        &self,
        clients: &mut Clients<S, T>,
    ) -> Result<(), Unsettled> {
        if self.seconds == 0 {
            clients.sync()
        } else {
            clients.settle()
        }
    }

    // Turns of the clients, before which all that was changed is in the file, or on the disk.
    fn kept_turns<S: Stream + Drop, T: KeptTree>(
        &self,
        clients: &mut Clients<S, T>,
        clock: u32,
    ) -> Result<Tally, Unsettled> {
        if self.seconds == 0 {
            clients.synced_turns(clock)
        } else {
            clients.settled_turns(clock)
        }
    }

    /// Brings all changes to the disk, where that is due: by a snapshot in the place of a journal that has
    /// grown long, and else by a sync.
    pub fn begin_second<S: Stream + Drop, T: KeptTree>(
        &mut self,
        now: u64,
        clients: &mut Clients<S, T>,
        shared: &Shared,
    ) -> Result<(), Unsettled> {
        if now.saturating_sub(self.synced) < self.seconds {
            return Ok(());
        }
        self.synced = now;
        if self.renew(clients, shared)? {
            return Ok(());
        }
        clients.sync()
    }

    // Puts a snapshot in the place of a journal that has grown long, and returns whether it did. Then all
    // changes are on the disk, also those that the journal had not synced.
    fn renew<S: Stream + Drop, T: KeptTree>(
        &mut self,
        clients: &mut Clients<S, T>,
        shared: &Shared,
    ) -> Result<bool, Unsettled> {
        let Some(mut journal) = clients.take_journal() else {
            return Err(Unsettled::NoJournal);
        };
        let most = match self.most {
            Some(most) => most,
            None => most_over(size_of(clients.forest())),
        };
        let mut is_renewed = false;
        if T::len(&journal) < most {
            self.most = Some(most);
        } else {
            match T::renew(&mut journal, clients.forest()) {
                Ok(()) => is_renewed = true,
                Err(_) => shared.tell(Level::Warning, &NoSnapshot(T::last_error(&journal))),
            }
            self.most = Some(most_over(T::len(&journal)));
        }
        clients.keep(journal);
        Ok(is_renewed)
    }

    /// Brings all changes to the disk.
    pub fn end<T: KeptTree>(&self, rt: &HostRuntime, guard: &mut Guard<T>) -> Result<(), Failure> {
        match guard.sync() {
            Ok(()) => Ok(()),
            Err(_) => {
                let journal = guard.take_journal();
                Err(self.failed::<T>(rt, journal))
            }
        }
    }

    /// Reports why changes can't be kept any more.
    pub fn fail<S: Stream + Drop, T: KeptTree>(
        &self,
        rt: &HostRuntime,
        clients: &mut Clients<S, T>,
    ) -> Failure {
        let journal = clients.take_journal();
        self.failed::<T>(rt, journal)
    }

    // Reports why changes can't be kept any more. After a sync that failed it isn't known what of the
    // file the system still has, so the next server takes what was synced before.
    fn failed<T: KeptTree>(&self, rt: &HostRuntime, journal: Option<T::Journal>) -> Failure {
        let Some(journal) = journal else {
            return Failure::Failed;
        };
        if T::is_unsure(&journal) {
            let _ = forget_start(rt, &self.folder);
        }
        let failure = failed::<T>(rt, &self.folder, &journal);
        drop(journal);
        failure
    }
}

// Whether nothing was changed since all of it was in the file.
fn is_settled<S: Stream + Drop, T: KeptTree>(clients: &Clients<S, T>) -> bool {
    match clients.forest().journal() {
        Some(journal) => T::is_settled(journal),
        None => true,
    }
}

// Turns of the clients, as long as they move something. They end where many did, or where so much was
// changed that the journal was settled between two of them.
fn held_turns<S: Stream + Drop, T: KeptTree>(clients: &mut Clients<S, T>, clock: u32) -> Tally {
    let mut held = Tally {
        moved: 0,
        closed: 0,
    };
    for _ in 0..HELD_MOST {
        let tally = clients.turns(clock);
        held = both(held, tally);
        if tally.moved == 0 || held.moved >= HELD_MOST || is_settled(clients) {
            break;
        }
    }
    held
}

// What two lots of turns came to.
fn both(first: Tally, second: Tally) -> Tally {
    Tally {
        moved: first.moved.saturating_add(second.moved),
        closed: first.closed.saturating_add(second.closed),
    }
}

// How many bytes a journal has before a snapshot takes its place, where one has so many.
fn most_over(snapshot: usize) -> usize {
    snapshot.saturating_mul(2).max(FEWEST)
}

// That there is no new snapshot, and why.
#[derive(Drop)]
struct NoSnapshot(Option<io::Error>);

impl Display for NoSnapshot {
    fn fmt<W: fmt::Write>(&self, f: &mut fmt::Formatter<W>) -> fmt::Result {
        match &self.0 {
            Some(error) => write!(f, "no snapshot was written: {error}"),
            None => f.write_str("no snapshot was written: out of memory"),
        }
    }
}
