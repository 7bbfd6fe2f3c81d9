//! A file of a folder, and its draft beside it, as a device.

ghost use Rattle.std.specs.Prelude.{◌≡◌, ◌↔◌, [], ◌∷◌, IfSome, IsOk, OnErr, OnOk, length};
ghost use Rattle.std.proofs.Common.{inl};
ghost use Rattle.std.proofs.Props.{props};
ghost use Rattle.p9_log.specs.declared.crash.Crash.TheVariants.{Killed, Stopped};
ghost use Rattle.p9_disk.specs.Crashes.{left_since, may_leave, only_now};
ghost use Rattle.p9_disk.specs.Events.{drafted, faults, is_unsure as is_unsure_after, opened, seen};

use crate::opening::make;
use crate::record::{Call, Record};
use crate::writing::{add_all, write_all};
use p9_log::{Device, DeviceError};
use std::alloc::Allocator;
use std::fs::{self, File};
use std::io;

/// A file of a folder as a device. Its draft is the file of the same name with `.new` behind it.
///
/// The file is read as it is opened, and these bytes are kept in memory until the first call. A read that
/// isn't the first call fails, since nothing else says what a file has.
///
/// After a sync of the file or of its folder that failed, each later sync fails, and each later draft that
/// is to be put. The system may have given up what it couldn't write, and wouldn't say so again.
///
/// A draft that isn't put is left. The next one takes its place.
///
/// Where a call fails by [`DeviceError::Failed`], [`FileDevice::last_error`] has the reason. No other code
/// may change the file, the draft or their names meanwhile.
#[derive(Drop)]
pub struct FileDevice {
    rt: HostRuntime,
    folder: File,
    path: String,
    draft_path: String,
    file: File,
    // the draft that is being written
    draft: Option<File>,
    // what the file has, until the first call
    first: Option<Vec<u8>>,
    // why the last call failed that did
    error: Option<io::Error>,
    // whether a sync of the file or the folder failed
    is_unsure: bool,
    calls: Record,
    ghost unsure: { is_unsure ≡ is_unsure_after calls.events },
    ghost kept: { IfSome first (λ bytes. bytes.items ≡ seen calls.events) } by { Prim.hlevel props },
}

/// What a device is made of.
#[derive(Drop)]
pub(crate) struct Parts {
    pub folder: File,
    pub path: String,
    pub draft_path: String,
    pub file: File,
}

impl FileDevice {
    ghost use Rattle.p9_disk.specs.Disk.{events_of, last_error};

    /// A device over this file, which is on the disk and has these bytes.
    pub(crate) fn new(rt: HostRuntime, parts: Parts, bytes: Vec<u8>) -> FileDevice
        ensures { events_of result ≡ opened bytes.items ∷ [] }
    {
        let calls = Record::new().with(&Call::Opened(&bytes));
        FileDevice {
            rt,
            folder: parts.folder,
            path: parts.path,
            draft_path: parts.draft_path,
            file: parts.file,
            draft: None,
            first: Some(bytes),
            error: None,
            is_unsure: false,
            calls,
        }
    }

    /// The error of the last call that failed by [`DeviceError::Failed`]. None where there was no such call.
    pub fn last_error(&self) -> Option<io::Error>
        ensures { result ≡ last_error self.now }
    {
        self.error
    }

    /// Whether a sync of the file or its folder has failed. It isn't known then what of the bytes that were
    /// not synced before the system still has.
    pub fn is_unsure(&self) -> bool
        ensures { result ≡ is_unsure_after (events_of self.now) }
    {
        self.is_unsure
    }
}

impl FileDevice {
    ghost use Rattle.p9_disk.specs.Disk.{events_of};
    ghost use Rattle.p9_disk.specs.Noted.{event_of};

    // Notes a call. What was read at first is given up.
    fn note(&mut self, call: &Call<'_>)
        ensures { events_of self.new ≡ event_of call.now ∷ events_of self.old }
    {
        self.first = None;
        self.is_unsure = call.is_failed_sync() || self.is_unsure;
        self.calls = self.calls.with(call);
    }

    // Notes a call by its answer.
    fn noted(
        &mut self,
        done: Call<'_>,
        failed: Call<'_>,
        answer: io::Result<()>,
    ) -> Result<(), DeviceError>
        ensures ok { OnOk result (events_of self.new ≡ event_of done.entry ∷ events_of self.old) }
        ensures told { IsOk result ↔ IsOk answer }
        ensures err { OnErr result (events_of self.new ≡ event_of failed.entry ∷ events_of self.old) }
    {
        match answer {
            Ok(()) => {
                self.note(&done);
                Ok(())
            }
            Err(error) => {
                self.note(&failed);
                self.error = Some(error);
                Err(DeviceError::Failed)
            }
        }
    }
}

// Makes a draft without bytes, in the place of what is at its name.
fn make_draft(rt: &HostRuntime, path: &str) -> io::Result<File> {
    match fs::remove_file(rt, path) {
        Err(error) if error.kind() != io::ErrorKind::NotFound => Err(error),
        _ => make(rt, path),
    }
}

// Syncs a draft and gives it a name that another file may have had.
fn rename_synced(rt: &HostRuntime, draft: &File, from: &str, to: &str) -> io::Result<()> {
    draft.sync_all()?;
    fs::rename(rt, from, to)
}

// What a call of a device returns, where the error is kept.
fn told(error: &mut Option<io::Error>, answer: io::Result<()>) -> Result<(), DeviceError>
    ensures { IsOk result ↔ IsOk answer }
{
    match answer {
        Ok(()) => Ok(()),
        Err(cause) => {
            *error = Some(cause);
            Err(DeviceError::Failed)
        }
    }
}

fn synced_no_more() -> io::Error {
    io::Error::other("a sync failed before")
}

fn no_draft() -> io::Error {
    io::Error::other("no draft is being written")
}

impl Device for FileDevice {
    ghost seen = { λ f. seen f.calls.events };

    ghost drafted = { λ f. drafted f.calls.events };

    ghost may_leave = { λ f how. may_leave how f.calls.events };

    ghost moment = { λ f. length f.calls.events };

    ghost left_since = { λ f how t. left_since how t f.calls.events };

    ghost faults = { λ f. faults f.calls.events };

    ghost alive = { λ f c now. now };

    ghost counts_now = { λ f how t c le now. inl now };

    ghost only_now = { λ f how c left. only_now how f.calls.events c left };

    fn read<A: Allocator>(&mut self, alloc: A) -> Result<Vec<u8, A>, DeviceError> {
        match &self.first {
            Some(bytes) => {
                let copy = bytes.to_vec(alloc)?;
                self.first = None;
                Ok(copy)
            }
            None => {
                self.note(&Call::ReadFailed);
                self.error = Some(io::Error::other("the file is read once, by the first call"));
                Err(DeviceError::Failed)
            }
        }
    }

    fn write_at(&mut self, at: usize, bytes: &[u8]) -> Result<(), DeviceError> {
        self.first = None;
        let answer = write_all(&self.file, &mut self.calls, at, bytes);
        told(&mut self.error, answer)
    }

    fn cut(&mut self, len: usize) -> Result<(), DeviceError> {
        let answer = self.file.set_len(len as u64);
        self.noted(Call::Cut(len), Call::CutFailed(len), answer)
    }

    fn sync(&mut self) -> Result<(), DeviceError> {
        if self.is_unsure {
            return self.noted(Call::Synced, Call::SyncFailed, Err(synced_no_more()));
        }
        let answer = self.file.sync_data();
        self.noted(Call::Synced, Call::SyncFailed, answer)
    }

    fn begin_draft(&mut self) -> Result<(), DeviceError> {
        self.draft = None;
        let answer = match make_draft(&self.rt, self.draft_path.as_str()) {
            Ok(draft) => {
                self.draft = Some(draft);
                Ok(())
            }
            Err(error) => Err(error),
        };
        self.noted(Call::DraftBegun, Call::DraftFailed, answer)
    }

    fn add_to_draft(&mut self, bytes: &[u8]) -> Result<(), DeviceError> {
        self.first = None;
        let answer = match &mut self.draft {
            Some(draft) => add_all(draft, &mut self.calls, bytes),
            None => return self.noted(Call::DraftAdded(bytes), Call::DraftFailed, Err(no_draft())),
        };
        if answer.is_err() {
            self.draft = None;
        }
        told(&mut self.error, answer)
    }

    fn put_draft(&mut self) -> Result<(), DeviceError> {
        if self.is_unsure {
            return self.noted(Call::DraftPut, Call::PutFailed, Err(synced_no_more()));
        }
        let draft = match self.draft.take() {
            Some(draft) => draft,
            None => return self.noted(Call::DraftPut, Call::PutFailed, Err(no_draft())),
        };
        let renamed = rename_synced(
            &self.rt,
            &draft,
            self.draft_path.as_str(),
            self.path.as_str(),
        );
        if renamed.is_err() {
            return self.noted(Call::DraftPut, Call::PutFailed, renamed);
        }
        self.file = draft;
        let answer = self.folder.sync_all();
        self.noted(Call::DraftPut, Call::DraftRenamed, answer)
    }
}
