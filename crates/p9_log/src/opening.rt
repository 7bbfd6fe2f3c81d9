//! A log is opened: in a file that a crash may have left, or as an empty one.

ghost use Rattle.std.specs.Prelude.{◌≡◌, ◌≤◌, ◌<◌, ◌+◌, ◌^◌, [], drop, IfErr, IfOk, IsErrOf, IsTrue, OnOk, length};
ghost use Rattle.p9_log.specs.declared.crash.Crash.{Crash};
ghost use Rattle.p9_log.specs.declared.crash.Crash.TheVariants.{Killed, Stopped};
ghost use Rattle.p9_log.specs.declared.device.DeviceError.TheVariants.{Failed};
ghost use Rattle.p9_log.specs.Blocks.{content_in};
ghost use Rattle.p9_log.specs.Device.{HasCause, LeavesOnly};
ghost use Rattle.p9_log.specs.Log.{IsCreated, IsRecovered, LeaveAsSeen};
ghost use Rattle.p9_log.specs.Reading.{len_without_zeros};
ghost use Rattle.p9_log.specs.Rest.{Begin, IsAtRest};

use crate::crash::Crash;
use crate::device::{Device, DeviceError};
use crate::error::LogError;
use crate::layout::MOST;
use crate::log::Log;
use crate::reading::{Found, read_blocks};
use crate::repair::{cut_to, mark_end, repair};
use std::alloc::Allocator;

/// A log that was recovered, and what is in it.
#[derive(Drop)]
pub struct Recovered<D: Device, A: Allocator> {
    pub log: Log<D>,
    /// All that was added to the log, but for what was lost.
    pub bytes: Vec<u8, A>,
    /// How many bytes of the file were behind the last block that counts, up to the last that isn't 0:
    /// zeros are written ahead of the blocks. Without a crash these are at most the 12 of a mark and of
    /// the gates of the next block.
    pub left_out: usize,
}

/// Recovers the log of a file that such a crash left, or of an empty file, and repairs the end of the
/// file. It may crash too, at any moment, and then the file is recovered as the same.
///
/// At `Ok` all that is in the log is on the disk. An `Err` hands the file back: the device failed, an
/// allocation failed, or the file has more than 2^60 bytes.
pub fn recover<D: Device, A: Allocator + Copy>(
    alloc: A,
    device: D,
    how: Crash,
) -> Result<Recovered<D, A>, (LogError, D)>
    ensures bytes { IfOk result (λ r. r.bytes.items ≡ content_in how (D.seen device)) }
    ensures content { IfOk result (λ r. (next : Crash) → content_in next (D.seen r.log.device)
        ≡ content_in how (D.seen device)) }
    ensures usable { IfOk result (λ r. IsTrue r.log.usable) }
    ensures outcomes { IfOk result (λ r. LeaveAsSeen (D.seen r.log.device)
        (D.may_leave r.log.device)) }
    ensures left_out { IfOk result (λ r.
        r.left_out ≡ len_without_zeros (drop r.log.kept (D.seen device))) }
    // A crash at any moment leaves what it might have left before, or a file that is recovered as
    // the same.
    ensures any_moment { IfOk result (λ r. (kind : Crash) → LeavesOnly D.moment D.left_since kind
        (IsRecovered how kind (D.seen device)) device r.log.device) }
    ensures any_moment_err { IfErr result (λ e. (kind : Crash) → LeavesOnly D.moment D.left_since
        kind (IsRecovered how kind (D.seen device)) device e.1) }
    // It doesn't give up by itself.
    ensures failed { IfErr result (λ e. e.0 ≡ LogError.Device DeviceError.Failed
        → D.faults device < D.faults e.1) }
    ensures full { IfErr result (λ e. e.0 ≡ LogError.Full → 2 ^ 60 < length (D.seen device)) }
    ensures ended { IfErr result (λ e. e.0 ≡ LogError.Ended → ⊥) }
    ensures no_draft { IfErr result (λ e. e.0 ≡ LogError.NoDraft → ⊥) }
{
    let mut device = device;
    match reopen(alloc, &mut device, how) {
        Ok(found) => Ok(Recovered {
            log: Log::at_rest(device, found.end),
            bytes: found.bytes,
            left_out: found.left_out,
        }),
        Err(error) => Err((error, device)),
    }
}

/// Reads the blocks of a file and repairs its end.
fn reopen<D: Device, A: Allocator + Copy>(
    alloc: A,
    device: &mut D,
    how: Crash,
) -> Result<Found<A>, LogError>
    ensures bytes { IfOk result (λ r. r.bytes.items ≡ content_in how (D.seen device.old)) }
    ensures at_rest { IfOk result (λ r. IsAtRest (D.seen device.new) r.end (r.end + 10)) }
    ensures content { OnOk result ((next : Crash) → content_in next (D.seen device.new)
        ≡ content_in how (D.seen device.old)) }
    ensures front { IfOk result (λ r. Begin (r.end + 1) (D.seen device.new)
        (D.may_leave device.new Stopped)) }
    ensures near { IfOk result (λ r. r.end ≤ 2 ^ 60) }
    ensures len { IfOk result (λ r. length (D.seen device.new) ≡ r.end + 12) }
    ensures left_out { IfOk result (λ r.
        r.left_out ≡ len_without_zeros (drop r.end (D.seen device.old))) }
    ensures any_moment { (kind : Crash) → LeavesOnly D.moment D.left_since kind
        (IsRecovered how kind (D.seen device.old)) device.old device.new }
    ensures failed { IsErrOf result (LogError.Device DeviceError.Failed)
        → D.faults device.old < D.faults device.new }
    ensures full { IsErrOf result LogError.Full → 2 ^ 60 < length (D.seen device.old) }
    ensures ended { IsErrOf result LogError.Ended → ⊥ }
    ensures no_draft { IsErrOf result LogError.NoDraft → ⊥ }
{
    let file = device.read(alloc)?;
    let found = read_blocks(alloc, &file, how)?;
    if found.end > MOST {
        return Err(LogError::Full);
    }
    repair(device, how, &found)?;
    Ok(found)
}

/// An empty log, in place of whatever is in the file. An `Err` hands the file back: the device failed.
pub fn create<D: Device>(device: D) -> Result<Log<D>, (DeviceError, D)>
    ensures content { IfOk result (λ log. (next : Crash) → content_in next (D.seen log.device) ≡ []) }
    ensures usable { IfOk result (λ log. IsTrue log.usable) }
    ensures outcomes { IfOk result (λ log. LeaveAsSeen (D.seen log.device)
        (D.may_leave log.device)) }
    ensures any_moment { IfOk result (λ log. (kind : Crash) → LeavesOnly D.moment D.left_since kind
        (IsCreated kind (D.seen device)) device log.device) }
    ensures any_moment_err { IfErr result (λ e. (kind : Crash) → LeavesOnly D.moment D.left_since
        kind (IsCreated kind (D.seen device)) device e.1) }
    ensures failed { IfErr result (λ e. e.0 ≡ Failed → D.faults device < D.faults e.1) }
{
    let mut device = device;
    match empty(&mut device) {
        Ok(()) => Ok(Log::at_rest(device, 0)),
        Err(error) => Err((error, device)),
    }
}

/// Cuts all of a file, and writes a mark.
fn empty<D: Device>(device: &mut D) -> Result<(), DeviceError>
    ensures at_rest { OnOk result (IsAtRest (D.seen device.new) 0 10) }
    ensures len { OnOk result (length (D.seen device.new) ≡ 12) }
    ensures content { OnOk result ((next : Crash) → content_in next (D.seen device.new) ≡ []) }
    ensures front { OnOk result (Begin 1 (D.seen device.new) (D.may_leave device.new Stopped)) }
    ensures any_moment { (kind : Crash) → LeavesOnly D.moment D.left_since kind
        (IsCreated kind (D.seen device.old)) device.old device.new }
    ensures cause { HasCause (D.faults device.old) (D.faults device.new) result }
{
    device.sync()?;
    cut_to(device, 0)?;
    mark_end(device, 0)
}
