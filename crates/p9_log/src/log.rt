//! A log in a file.

ghost use Rattle.std.specs.Prelude.{◌≡◌, ◌≤◌, ◌+◌, ◌^◌, false, if◌then◌else◌, IsTrue, length};
ghost use Rattle.p9_log.specs.declared.crash.Crash.TheVariants.{Killed, Stopped};
ghost use Rattle.p9_log.specs.Blocks.{content_in};
ghost use Rattle.p9_log.specs.Draft.{IsDraft};
ghost use Rattle.p9_log.specs.Rest.{Begin, IsAtRest};

use crate::device::{Device, DeviceError};
use crate::error::LogError;
use crate::keeping::keep;
use crate::layout::{HEAD, MARK, MOST, OPEN, TAIL};
use crate::room::make_room;
use crate::staging::stage;

/// A log in a file.
///
/// What is in it is all that was added, one run of bytes after another. What a crash leaves of it is
/// read by [`recover`](crate::recover).
///
/// Where a call of the device for the file fails, the log refuses all calls from then on, and changes
/// nothing. What its file then has is as before that call, or as after it. A call for a draft that
/// fails ends the draft, and the log is as it was.
#[derive(Drop)]
pub struct Log<D: Device> {
    device: D,
    // where the closed sync gate is, before what was written since the last sync
    kept: usize,
    // where the gates of the next block are
    end: usize,
    // how many bytes the file has
    size: usize,
    // whether there may be something to sync
    pending: bool,
    // whether no call of the device for the file has failed
    usable: bool,
    // whether a draft is open
    drafting: bool,
    // how many bytes it has
    drafted: usize,
    ghost at_rest: { IsTrue usable → IsAtRest (D.seen device) kept end },
    ghost whole: { IsTrue usable → size ≡ length (D.seen device) },
    ghost durable: { IsTrue usable → Begin (kept + 1) (D.seen device) (D.may_leave device Stopped) },
    ghost synced: { IsTrue usable → pending ≡ false
        → content_in Killed (D.seen device) ≡ content_in Stopped (D.seen device) },
    ghost near: { IsTrue usable → end ≤ 2 ^ 61 + (if pending then 10 else 20) },
    ghost in_use: { IsTrue drafting → IsTrue usable },
    ghost draft: { IsTrue drafting → IsDraft (D.drafted device) drafted },
}

impl<D: Device> Log<D> {
    ghost use Rattle.std.specs.Prelude.{◌++◌, ◌<◌, [], IsErrOf, List, OnErr, OnOk, ℕ};
    ghost use Rattle.p9_log.specs.declared.crash.Crash.{Crash};
    ghost use Rattle.p9_log.specs.Device.{LeavesOnly, Only};
    ghost use Rattle.p9_log.specs.Log.{AlwaysHas, IfRefused, IsAppended, IsKept, LeaveAsSeen, NoMore, Nothing};
    ghost use Rattle.p9_log.specs.Rest.{held};

    /// A log in a file at rest, all of it on the disk.
    pub(crate) fn at_rest(device: D, kept: usize) -> Log<D>
        requires rest { IsAtRest (D.seen device) kept (kept + 10) }
        requires front { Begin (kept + 1) (D.seen device) (D.may_leave device Stopped) }
        requires synced { content_in Killed (D.seen device) ≡ content_in Stopped (D.seen device) }
        requires size { length (D.seen device) ≡ kept + 12 }
        requires near { kept ≤ 2 ^ 60 }
        ensures device { result.device ≡ device }
        ensures kept { result.kept ≡ kept }
        ensures usable { IsTrue result.usable }
        ensures outcomes { LeaveAsSeen (D.seen device) (D.may_leave device) }
    {
        Log {
            device,
            kept,
            end: kept + HEAD,
            size: kept + HEAD + TAIL,
            pending: false,
            usable: true,
            drafting: false,
            drafted: 0,
        }
    }

    /// The file.
    pub fn device(&self) -> &D
        ensures { result.now ≡ self.now.device }
    {
        &self.device
    }

    /// Whether no call of the device for the file has failed. Else the log refuses all.
    pub fn is_usable(&self) -> bool
        ensures { result ≡ self.now.usable }
    {
        self.usable
    }

    /// Where the next block goes: how many bytes of the file count. Its gates are behind them, and zeros
    /// may be behind these.
    pub fn len(&self) -> usize
        ensures end { result ≡ self.now.end }
        ensures size { IsTrue self.now.usable → result + 2 ≤ length (D.seen self.now.device) }
    {
        self.end
    }

    /// The file, which the log gives up.
    pub fn into_device(self) -> D
        ensures { result ≡ self.device }
    {
        self.device
    }

    /// Adds bytes, of which a crash leaves all or none. At `Ok` a process that is killed leaves them.
    /// A machine that stops leaves what was synced before.
    ///
    /// The bytes are in a buffer, from [`HEAD`] to `end`. The block is made around them, in the room
    /// before and behind them. Its write gate is opened once all else of it is written, so that what was
    /// behind the gates before it doesn't count. Where the file is too short for the block, it is made
    /// longer first, by zeros.
    ///
    /// The errors are a log that would be longer than 2^60 bytes or has failed before, which change
    /// nothing, and a failure of the device.
    pub fn append(&mut self, buffer: &mut [u8], end: usize) -> Result<(), LogError>
        requires head { 10 ≤ end }
        requires room { end + 2 ≤ length buffer.old }
        ensures usable { OnOk result (IsTrue self.new.usable) }
        ensures written { OnOk result (content_in Killed (D.seen self.new.device)
            ≡ content_in Killed (D.seen self.old.device) ++ held buffer.old end) }
        ensures synced { OnOk result (content_in Stopped (D.seen self.new.device)
            ≡ content_in Stopped (D.seen self.old.device)) }
        ensures outcomes { OnOk result (LeaveAsSeen (D.seen self.new.device)
            (D.may_leave self.new.device)) }
        // A crash at any moment of the call leaves what it might have left before, or this.
        ensures any_moment { (how : Crash) → LeavesOnly D.moment D.left_since how
            (IsAppended how (D.seen self.old.device) (held buffer.old end)) self.old.device
            self.new.device }
        ensures refused { IfRefused result
            ((self.new.device ≡ self.old.device) × (self.new.usable ≡ self.old.usable)) }
        // It doesn't give up by itself.
        ensures ended { IsErrOf result LogError.Ended → self.old.usable ≡ false }
        ensures no_draft { IsErrOf result LogError.NoDraft → ⊥ }
        ensures full { IsErrOf result LogError.Full
            → 2 ^ 60 < length (D.seen self.old.device) + length (held buffer.old end) }
        ensures memory { IsErrOf result LogError.Memory → ⊥ }
        ensures faults { D.faults self.old.device ≤ D.faults self.new.device }
        ensures failed { IsErrOf result (LogError.Device DeviceError.Failed)
            → D.faults self.old.device < D.faults self.new.device }
    {
        if !self.usable {
            return Err(LogError::Ended);
        }
        if self.end > MOST || end - HEAD > MOST {
            return Err(LogError::Full);
        }
        stage(buffer, end);
        self.usable = false;
        self.drafting = false;
        let wanted = self.end + end + TAIL;
        let size = make_room(&mut self.device, self.size, wanted)?;
        self.device
            .write_at(self.end + TAIL, &buffer[TAIL..end + TAIL])?;
        self.device.write_at(self.end + 1, &OPEN[1..])?;
        self.end += end;
        self.size = size.max(wanted);
        self.pending = true;
        self.usable = true;
        Ok(())
    }

    /// Brings all that was added to the disk. At `Ok` a machine that stops leaves all of it. Where
    /// nothing was added since the last sync, the device isn't called.
    ///
    /// The errors are a log that has failed before, and a failure of the device.
    pub fn sync(&mut self) -> Result<(), LogError>
        ensures usable { OnOk result (IsTrue self.new.usable) }
        ensures written { OnOk result (content_in Killed (D.seen self.new.device)
            ≡ content_in Killed (D.seen self.old.device)) }
        ensures synced { OnOk result (content_in Stopped (D.seen self.new.device)
            ≡ content_in Killed (D.seen self.old.device)) }
        ensures outcomes { OnOk result (LeaveAsSeen (D.seen self.new.device)
            (D.may_leave self.new.device)) }
        // A crash at any moment of the call leaves what it might have left before, or this.
        ensures any_moment { (how : Crash) → LeavesOnly D.moment D.left_since how
            (IsKept how (D.seen self.old.device)) self.old.device self.new.device }
        ensures refused { IfRefused result
            ((self.new.device ≡ self.old.device) × (self.new.usable ≡ self.old.usable)) }
        // It doesn't give up by itself.
        ensures ended { IsErrOf result LogError.Ended → self.old.usable ≡ false }
        ensures no_draft { IsErrOf result LogError.NoDraft → ⊥ }
        ensures full { IsErrOf result LogError.Full → ⊥ }
        ensures memory { IsErrOf result LogError.Memory → ⊥ }
        ensures faults { D.faults self.old.device ≤ D.faults self.new.device }
        ensures failed { IsErrOf result (LogError.Device DeviceError.Failed)
            → D.faults self.old.device < D.faults self.new.device }
    {
        if !self.usable {
            return Err(LogError::Ended);
        }
        if !self.pending {
            return Ok(());
        }
        self.usable = false;
        self.drafting = false;
        keep(&mut self.device, self.kept, self.end)?;
        self.kept = self.end;
        self.end += HEAD;
        self.size = self.size.max(self.end + TAIL);
        self.pending = false;
        self.usable = true;
        Ok(())
    }

    /// Begins a draft of the log, without bytes, in the place of one that was begun before. The log is
    /// as it was, and a crash leaves what it might have left before. The draft ends where
    /// [`append`](Log::append) or [`sync`](Log::sync) calls the device.
    ///
    /// The errors are a log that has failed before, which changes nothing, and a failure of the device,
    /// after which no draft is open.
    pub fn begin_draft(&mut self) -> Result<(), LogError>
        ensures drafting { OnOk result (IsTrue self.new.drafting) }
        ensures drafted { OnOk result (content_in Stopped (D.drafted self.new.device) ≡ []) }
        ensures seen { D.seen self.new.device ≡ D.seen self.old.device }
        ensures usable { self.new.usable ≡ self.old.usable }
        ensures outcomes { NoMore (D.may_leave self.old.device) (D.may_leave self.new.device) }
        // A crash at any moment of the call leaves what it might have left before.
        ensures any_moment { (how : Crash) → LeavesOnly D.moment D.left_since how Nothing
            self.old.device self.new.device }
        ensures refused { IfRefused result (self.new.device ≡ self.old.device) }
        // It doesn't give up by itself.
        ensures ended { IsErrOf result LogError.Ended → self.old.usable ≡ false }
        ensures no_draft { IsErrOf result LogError.NoDraft → ⊥ }
        ensures full { IsErrOf result LogError.Full → ⊥ }
        ensures memory { IsErrOf result LogError.Memory → ⊥ }
        ensures faults { D.faults self.old.device ≤ D.faults self.new.device }
        ensures failed { IsErrOf result (LogError.Device DeviceError.Failed)
            → D.faults self.old.device < D.faults self.new.device }
    {
        if !self.usable {
            return Err(LogError::Ended);
        }
        self.drafting = false;
        self.device.begin_draft()?;
        self.drafted = 0;
        self.drafting = true;
        Ok(())
    }

    /// Adds bytes to the draft, which are in a buffer as for [`append`](Log::append). The log is as it
    /// was, and a crash leaves what it might have left before.
    ///
    /// The errors are a draft that would be longer than 2^60 bytes or isn't open, which change nothing,
    /// and a failure of the device, after which no draft is open.
    pub fn add_to_draft(&mut self, buffer: &mut [u8], end: usize) -> Result<(), LogError>
        requires head { 10 ≤ end }
        requires room { end + 2 ≤ length buffer.old }
        ensures drafting { OnOk result (IsTrue self.new.drafting) }
        ensures drafted { OnOk result (content_in Stopped (D.drafted self.new.device)
            ≡ content_in Stopped (D.drafted self.old.device) ++ held buffer.old end) }
        ensures seen { D.seen self.new.device ≡ D.seen self.old.device }
        ensures usable { self.new.usable ≡ self.old.usable }
        ensures outcomes { NoMore (D.may_leave self.old.device) (D.may_leave self.new.device) }
        // A crash at any moment of the call leaves what it might have left before.
        ensures any_moment { (how : Crash) → LeavesOnly D.moment D.left_since how Nothing
            self.old.device self.new.device }
        ensures refused { IfRefused result ((self.new.device ≡ self.old.device)
            × (self.new.drafting ≡ self.old.drafting)) }
        // It doesn't give up by itself.
        ensures ended { IsErrOf result LogError.Ended → ⊥ }
        ensures no_draft { IsErrOf result LogError.NoDraft → self.old.drafting ≡ false }
        ensures full { IsErrOf result LogError.Full
            → 2 ^ 60 < length (D.drafted self.old.device) + length (held buffer.old end) }
        ensures memory { IsErrOf result LogError.Memory → ⊥ }
        ensures faults { D.faults self.old.device ≤ D.faults self.new.device }
        ensures failed { IsErrOf result (LogError.Device DeviceError.Failed)
            → D.faults self.old.device < D.faults self.new.device }
    {
        if !self.drafting {
            return Err(LogError::NoDraft);
        }
        if self.drafted > MOST || end - HEAD > MOST {
            return Err(LogError::Full);
        }
        stage(buffer, end);
        self.drafting = false;
        self.device.add_to_draft(&buffer[..end])?;
        self.drafted += end;
        self.drafting = true;
        Ok(())
    }

    /// Puts the draft in the place of the log. At `Ok` the log has what the draft had, all of it on the
    /// disk. A crash meanwhile leaves the log as it was, or that.
    ///
    /// The errors are a draft that isn't open, which changes nothing, and a failure of the device. After
    /// that no draft is open, and the log refuses all, or can be used and is as it was.
    pub fn put_draft(&mut self) -> Result<(), LogError>
        ensures usable { OnOk result (IsTrue self.new.usable) }
        ensures content { OnOk result (AlwaysHas (content_in Stopped (D.drafted self.old.device))
            (D.seen self.new.device)) }
        ensures outcomes { OnOk result (LeaveAsSeen (D.seen self.new.device)
            (D.may_leave self.new.device)) }
        ensures as_it_was { OnErr result (IsTrue self.new.usable
            → (D.seen self.new.device ≡ D.seen self.old.device)
            × NoMore (D.may_leave self.old.device) (D.may_leave self.new.device)) }
        // A crash at any moment of the call leaves what it might have left before, or the draft.
        ensures any_moment { (how : Crash) → LeavesOnly D.moment D.left_since how
            (AlwaysHas (content_in Stopped (D.drafted self.old.device))) self.old.device
            self.new.device }
        ensures refused { IfRefused result
            ((self.new.device ≡ self.old.device) × (self.new.usable ≡ self.old.usable)) }
        // It doesn't give up by itself.
        ensures ended { IsErrOf result LogError.Ended → ⊥ }
        ensures no_draft { IsErrOf result LogError.NoDraft → self.old.drafting ≡ false }
        ensures full { IsErrOf result LogError.Full → ⊥ }
        ensures memory { IsErrOf result LogError.Memory → ⊥ }
        ensures faults { D.faults self.old.device ≤ D.faults self.new.device }
        ensures failed { IsErrOf result (LogError.Device DeviceError.Failed)
            → D.faults self.old.device < D.faults self.new.device }
    {
        if !self.drafting {
            return Err(LogError::NoDraft);
        }
        self.drafting = false;
        self.device.add_to_draft(&MARK)?;
        self.usable = false;
        self.device.put_draft()?;
        self.kept = self.drafted;
        self.end = self.drafted + HEAD;
        self.size = self.end + TAIL;
        self.pending = false;
        self.usable = true;
        Ok(())
    }
}
