//! A journal of records in a log.

ghost use Rattle.std.specs.Prelude.{◌≡◌, ◌++◌, [], IsTrue};
ghost use Rattle.p9_log.specs.declared.crash.Crash.TheVariants.{Killed, Stopped};
ghost use Rattle.p9_log.specs.Blocks.{content_in};
ghost use Rattle.p9_log.specs.Log.{LeaveAsSeen};
ghost use Rattle.p9_kept.specs.Edits.{IsWhole, stood_for};

use crate::drafting::put_forest;
use crate::noting::Noted;
use p9_base::NoMemory;
use p9_log::{Device, Log, LogError};
use p9_tree::{Forest, ForestChange, Journal, Tree, Unsettled};
use std::alloc::Allocator;
use thiserror::Error;

// From so many bytes on that were noted a journal is settled between two events.
const RELIEVED: usize = 1 << 15;

// An event notes at most the bytes of a frame, which has at most 1,048,576, and some more for each
// change: the end of a session removes at most the files of its 1,024 fids.
const EVENT_MAX: usize = (1 << 20) + (1 << 15);

// For so many bytes there is room when a journal begins, with the block that its log makes of them.
const ROOM: usize = RELIEVED + EVENT_MAX;

/// Why a journal was not renewed. If it is still whole, it is as it was, and can be renewed later.
#[derive(Clone, Copy, Debug, PartialEq, Eq, Error)]
pub enum RenewError {
    /// The journal could not be settled.
    #[error("the journal can't be settled")]
    Unsettled(Unsettled),
    /// The draft could not be written, or not be put in the place of the log.
    #[error("{0}")]
    Log(LogError),
}

impl From<Unsettled> for RenewError {
    fn from(error: Unsettled) -> RenewError {
        RenewError::Unsettled(error)
    }
}

impl From<LogError> for RenewError {
    fn from(error: LogError) -> RenewError {
        RenewError::Log(error)
    }
}

/// A journal of records: those that were noted since it was settled are in a buffer, and those before
/// them in a log.
#[derive(Drop)]
pub struct FileJournal<D: Device, A: Allocator + Copy> {
    log: Log<D>,
    // the records that were noted since it was settled
    noted: Noted<A>,
    whole: bool,
    ghost records: { IsTrue whole
        → IsWhole (content_in Killed (D.seen log.device) ++ noted) },
    ghost as_seen: { IsTrue whole → LeaveAsSeen (D.seen log.device) (D.may_leave log.device) },
}

impl<D: Device, A: Allocator + Copy> Journal for FileJournal<D, A> {
    ghost use Rattle.std.specs.Prelude.{◌≡◌, ◌++◌, List, ℕ};
    ghost use Rattle.p9_log.specs.declared.crash.Crash.TheVariants.{Killed, Stopped};
    ghost use Rattle.p9_log.specs.Blocks.{content_in};
    ghost use Rattle.p9_kept.specs.Edits.{stood_for};

    ghost is_whole = { λ j. j.whole };

    ghost stands_for = { λ j. stood_for (content_in Killed (D.seen j.log.device) ++ j.noted) };

    ghost settled = { λ j. stood_for (content_in Killed (D.seen j.log.device)) };

    ghost synced = { λ j. stood_for (content_in Stopped (D.seen j.log.device)) };

    ghost may_stay = { λ j forest. (file : List ℕ) × D.may_leave j.log.device Killed file
        × (forest ≡ stood_for (content_in Killed file)) };

    ghost may_stand = { λ j forest. (file : List ℕ) × D.may_leave j.log.device Stopped file
        × (forest ≡ stood_for (content_in Stopped file)) };

    fn note(&mut self, change: &ForestChange<'_>) {
        self.note_change(change);
    }

    fn relieve(&mut self) {
        self.relieve_noted();
    }

    fn settle(&mut self) -> Result<(), Unsettled> {
        self.settle_noted()
    }

    fn sync(&mut self) -> Result<(), Unsettled> {
        self.sync_noted()
    }
}

impl<D: Device, A: Allocator + Copy> FileJournal<D, A> {
    ghost use Rattle.std.specs.Prelude.{◌≡◌, ◌<◌, ◌++◌, ◌⊎◌, ◌==◌, [], false, IfErr, IfOk, IsTrue, List, OnErr, OnOk, length, ℕ};
    ghost use Rattle.p9_log.specs.declared.crash.Crash.{Crash};
    ghost use Rattle.p9_log.specs.declared.crash.Crash.TheVariants.{Killed, Stopped};
    ghost use Rattle.p9_log.specs.Blocks.{content_in};
    ghost use Rattle.p9_log.specs.Device.{LeavesOnly};
    ghost use Rattle.p9_log.specs.Log.{AlwaysHas, IsAppended, LeaveAsSeen};
    ghost use Rattle.p9_record.specs.Closed.{closed_spelling};
    ghost use Rattle.p9_record.specs.Record.{FitsForestEdit};
    ghost use Rattle.p9_tree.specs.ForestChange.{forest_edit_of};
    ghost use Rattle.p9_tree.specs.Server.{Server};
    ghost use Rattle.p9_kept.specs.Edits.{IsWhole, stood_for};
    ghost use Rattle.p9_kept.specs.Making.{IsAppendedAndKept, IsRenewed, IsUntouched, Makes};
    ghost use Rattle.p9_kept.specs.Settling.{relieved, unsettled};

    /// A journal behind the records of a log, with room for what is noted between two calls of
    /// [`relieve`](Journal::relieve), so that keeping changes takes no memory from then on. The only
    /// error is a failed allocation.
    pub fn begin(alloc: A, log: Log<D>) -> Result<FileJournal<D, A>, NoMemory>
        requires whole { IsWhole (content_in Killed (D.seen log.device)) }
        requires as_seen { LeaveAsSeen (D.seen log.device) (D.may_leave log.device) }
        ensures whole { IfOk result (λ journal.
            IsTrue (⟦<FileJournal<D, A> as Journal>⟧.is_whole journal)) }
        ensures stands_for { IfOk result (λ journal.
            ⟦<FileJournal<D, A> as Journal>⟧.stands_for journal
            ≡ stood_for (content_in Killed (D.seen log.device))) }
    {
        Ok(FileJournal {
            log,
            noted: Noted::with_room(alloc, ROOM)?,
            whole: true,
        })
    }

    /// The file.
    pub fn device(&self) -> &D
        ensures { result.now ≡ self.now.log.device }
    {
        self.log.device()
    }

    /// How many bytes of the file count.
    pub fn len(&self) -> usize
        ensures { result ≡ self.now.log.end }
    {
        self.log.len()
    }

    /// Whether nothing was noted since the journal was settled.
    pub fn is_settled(&self) -> bool
        ensures { result ≡ (length self.now.noted == 0) }
    {
        self.noted.is_empty()
    }

    /// Notes a change, as [`Journal::note`], and returns whether the journal is whole. Its file is
    /// unchanged.
    pub fn note_change(&mut self, change: &ForestChange<'_>) -> bool
        ensures whole { result ≡ self.new.whole }
        ensures less { IsTrue self.new.whole → IsTrue self.old.whole }
        ensures log { self.new.log ≡ self.old.log }
        ensures noted { IsTrue self.new.whole → self.new.noted
            ≡ self.old.noted ++ closed_spelling (forest_edit_of change.now) }
        ensures fits { IsTrue self.new.whole → FitsForestEdit (forest_edit_of change.now) }
    {
        if !self.whole {
            return false;
        }
        match self.noted.push(change) {
            Ok(()) => true,
            Err(_) => {
                self.whole = false;
                false
            }
        }
    }

    /// Makes what was noted outlast the process, as [`Journal::settle`]. A journal that isn't whole is
    /// [`Unsettled::Missing`], and a file that fails [`Unsettled::Failed`].
    pub fn settle_noted(&mut self) -> Result<(), Unsettled>
        ensures whole { IsTrue self.new.whole → IsTrue self.old.whole }
        ensures ok { OnOk result (IsTrue self.new.whole) }
        ensures err { OnErr result (self.new.whole ≡ false) }
        ensures why { IfErr result (λ error. error ≡ unsettled self.old.whole) }
        ensures empty { OnOk result (self.new.noted ≡ []) }
        ensures settled { OnOk result (content_in Killed (D.seen self.new.log.device)
            ≡ content_in Killed (D.seen self.old.log.device) ++ self.old.noted) }
        ensures synced { OnOk result (content_in Stopped (D.seen self.new.log.device)
            ≡ content_in Stopped (D.seen self.old.log.device)) }
        // A crash at any moment of the call leaves what it might have left before, or this.
        ensures any_moment { (how : Crash) → LeavesOnly D.moment D.left_since how
            (IsAppended how (D.seen self.old.log.device) self.old.noted)
            self.old.log.device self.new.log.device }
    {
        if !self.whole {
            return Err(Unsettled::Missing);
        }
        if self.noted.is_empty() {
            return Ok(());
        }
        if self.noted.append_to(&mut self.log).is_err() {
            self.whole = false;
            return Err(Unsettled::Failed);
        }
        Ok(())
    }

    /// Settles where 32 KiB were noted since, as [`Journal::relieve`]. Fewer are noted afterwards, or the
    /// journal isn't whole.
    pub fn relieve_noted(&mut self)
        ensures whole { IsTrue self.new.whole → IsTrue self.old.whole }
        ensures same { IsTrue self.new.whole
            → content_in Killed (D.seen self.new.log.device) ++ self.new.noted
            ≡ content_in Killed (D.seen self.old.log.device) ++ self.old.noted }
        ensures bounded { IsTrue self.new.whole → length self.new.noted < relieved }
        ensures settled { IsTrue self.new.whole
            → (D.seen self.new.log.device ≡ D.seen self.old.log.device)
            ⊎ (self.new.noted ≡ []) }
        ensures synced { IsTrue self.new.whole → content_in Stopped (D.seen self.new.log.device)
            ≡ content_in Stopped (D.seen self.old.log.device) }
        // A crash at any moment of the call leaves what it might have left before, or this.
        ensures any_moment { (how : Crash) → LeavesOnly D.moment D.left_since how
            (IsAppended how (D.seen self.old.log.device) self.old.noted)
            self.old.log.device self.new.log.device }
    {
        if self.noted.len() >= RELIEVED {
            let _ = self.settle_noted();
        }
    }

    /// Makes what was noted outlast the machine, as [`Journal::sync`], with the errors of
    /// [`settle_noted`](FileJournal::settle_noted).
    pub fn sync_noted(&mut self) -> Result<(), Unsettled>
        ensures whole { IsTrue self.new.whole → IsTrue self.old.whole }
        ensures ok { OnOk result (IsTrue self.new.whole) }
        ensures err { OnErr result (self.new.whole ≡ false) }
        ensures why { IfErr result (λ error. error ≡ unsettled self.old.whole) }
        ensures empty { OnOk result (self.new.noted ≡ []) }
        ensures settled { OnOk result (content_in Killed (D.seen self.new.log.device)
            ≡ content_in Killed (D.seen self.old.log.device) ++ self.old.noted) }
        ensures synced { OnOk result (content_in Stopped (D.seen self.new.log.device)
            ≡ content_in Killed (D.seen self.old.log.device) ++ self.old.noted) }
        // A crash at any moment of the call leaves what it might have left before, or this.
        ensures any_moment { (how : Crash) → LeavesOnly D.moment D.left_since how
            (IsAppendedAndKept how (D.seen self.old.log.device) self.old.noted)
            self.old.log.device self.new.log.device }
    {
        self.settle_noted()?;
        if self.log.sync().is_err() {
            self.whole = false;
            return Err(Unsettled::Failed);
        }
        Ok(())
    }

    /// Makes the journal one of the fewest changes that make this forest from none: they take the
    /// place of all that it had, which a crash leaves whole until then. At `Ok` neither a process that
    /// is killed nor a machine that stops has lost anything of the forest.
    ///
    /// After an error the journal may be whole or not. It isn't where it couldn't be settled. Where
    /// the draft couldn't be written, as on a full disk, it is as whole as before.
    pub fn renew<T: Tree>(&mut self, forest: &Forest<T>) -> Result<(), RenewError>
        ensures whole { IsTrue self.new.whole → IsTrue self.old.whole }
        ensures ok { OnOk result (IsTrue self.new.whole) }
        ensures stands { OnOk result (⟦<FileJournal<D, A> as Journal>⟧.stands_for self.new
            ≡ forest.now) }
        ensures settled { OnOk result (⟦<FileJournal<D, A> as Journal>⟧.settled self.new
            ≡ forest.now) }
        ensures synced { OnOk result (⟦<FileJournal<D, A> as Journal>⟧.synced self.new
            ≡ forest.now) }
        ensures kept { OnOk result ((left : List Server)
            → ⟦<FileJournal<D, A> as Journal>⟧.may_stay self.new left
            ⊎ ⟦<FileJournal<D, A> as Journal>⟧.may_stand self.new left → left ≡ forest.now) }
        ensures same { OnErr result (IsTrue self.new.whole
            → ⟦<FileJournal<D, A> as Journal>⟧.stands_for self.new
            ≡ ⟦<FileJournal<D, A> as Journal>⟧.stands_for self.old) }
        ensures stay { (left : List Server) → ⟦<FileJournal<D, A> as Journal>⟧.may_stay self.new left
            → ⟦<FileJournal<D, A> as Journal>⟧.may_stay self.old left
            ⊎ (left ≡ ⟦<FileJournal<D, A> as Journal>⟧.settled self.old)
            ⊎ (left ≡ ⟦<FileJournal<D, A> as Journal>⟧.stands_for self.old)
            ⊎ (left ≡ forest.now) }
        ensures stand { (left : List Server) → ⟦<FileJournal<D, A> as Journal>⟧.may_stand self.new left
            → ⟦<FileJournal<D, A> as Journal>⟧.may_stand self.old left
            ⊎ (left ≡ ⟦<FileJournal<D, A> as Journal>⟧.synced self.old) ⊎ (left ≡ forest.now) }
        // A crash at any moment of the call leaves what it might have left before, or this.
        ensures any_moment { (how : Crash) → LeavesOnly D.moment D.left_since how
            (IsRenewed how (D.seen self.old.log.device) self.old.noted forest.now)
            self.old.log.device self.new.log.device }
    {
        self.settle_noted()?;
        self.draft(forest)?;
        self.put_draft()?;
        Ok(())
    }

    // Writes the changes that make a forest into a draft of the log.
    fn draft<T: Tree>(&mut self, forest: &Forest<T>) -> Result<(), LogError>
        requires { self.old.noted ≡ [] }
        ensures whole { self.new.whole ≡ self.old.whole }
        ensures noted { self.new.noted ≡ [] }
        ensures made { OnOk result (Makes (D.drafted self.new.log.device) [] forest.now) }
        ensures log { IsUntouched D.seen D.moment D.may_leave D.left_since self.old.log.device
            self.new.log.device }
    {
        forest.well_formed();
        self.log.begin_draft()?;
        let drafted = put_forest(&mut self.log, &mut self.noted, forest.trees());
        self.noted.clear();
        drafted
    }

    // Puts the draft in the place of the log.
    fn put_draft(&mut self) -> Result<(), LogError>
        requires noted { self.old.noted ≡ [] }
        requires draft { IsWhole (content_in Stopped (D.drafted self.old.log.device)) }
        ensures whole { IsTrue self.new.whole → IsTrue self.old.whole }
        ensures ok { OnOk result (self.new.whole ≡ self.old.whole) }
        ensures noted { self.new.noted ≡ [] }
        ensures content { OnOk result (AlwaysHas (content_in Stopped (D.drafted self.old.log.device))
            (D.seen self.new.log.device)) }
        ensures outcomes { OnOk result (LeaveAsSeen (D.seen self.new.log.device)
            (D.may_leave self.new.log.device)) }
        ensures same { OnErr result (IsTrue self.new.whole
            → D.seen self.new.log.device ≡ D.seen self.old.log.device) }
        // A crash at any moment of the call leaves what it might have left before, or the draft.
        ensures any_moment { (how : Crash) → LeavesOnly D.moment D.left_since how
            (AlwaysHas (content_in Stopped (D.drafted self.old.log.device)))
            self.old.log.device self.new.log.device }
    {
        if let Err(error) = self.log.put_draft() {
            self.whole = self.whole && self.log.is_usable();
            return Err(error);
        }
        Ok(())
    }
}
