//! The calls of the system on a file, noted for proofs alone.

ghost use Rattle.std.specs.Prelude.{◌≡◌, List, [], ◌∷◌};
ghost use Rattle.std.specs.Borrow.{ftrue};
ghost use Rattle.p9_disk.specs.Events.{Event, events_code};

use std::marker::Model;

/// The calls of the system on a file so far. It takes no memory.
///
/// Only [`Record::with`] adds one, and no memory holds them, so that its contract is proved by hand.
#[derive(Drop)]
pub struct Record {
    pub ghost events: { List Event } by { events_code },
}

impl Model for Record {
    ghost also_owns = { λ _. ftrue };
}

/// A call of the system, and how it ended.
#[derive(Clone, Copy, Drop)]
pub(crate) enum Call<'a> {
    /// The file and its folder were synced, and the file had these bytes.
    Opened(&'a [u8]),
    /// There was nothing to read any more.
    ReadFailed,
    Wrote(usize, &'a [u8]),
    WriteFailed(usize, &'a [u8]),
    Cut(usize),
    CutFailed(usize),
    Synced,
    SyncFailed,
    DraftBegun,
    DraftAdded(&'a [u8]),
    DraftFailed,
    /// The draft was synced, renamed to the file's name, and the folder was synced.
    DraftPut,
    /// The draft was synced and renamed, and the folder wasn't synced.
    DraftRenamed,
    /// The draft wasn't synced, or not renamed.
    PutFailed,
}

impl Call<'_> {
    ghost use Rattle.p9_disk.specs.Events.{is_failed_sync};
    ghost use Rattle.p9_disk.specs.Noted.{event_of};

    /// Whether the file or the folder wasn't synced.
    pub(crate) fn is_failed_sync(&self) -> bool
        ensures { result ≡ is_failed_sync (event_of self.now) }
    {
        matches!(self, Call::SyncFailed | Call::DraftRenamed)
    }
}

impl Record {
    ghost use Rattle.p9_disk.specs.Noted.{event_of};

    pub(crate) fn new() -> Record
        ensures { result.events ≡ [] }
    {
        Record {}
    }

    /// These calls and one more.
    pub(crate) fn with(&self, _call: &Call<'_>) -> Record
        ensures { result.events ≡ event_of _call.now ∷ self.now.events }
    {
        Record {}
    }
}
