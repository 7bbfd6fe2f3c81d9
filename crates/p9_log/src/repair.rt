//! The end of a file that a crash left is repaired.

ghost use Rattle.std.specs.Prelude.{◌≡◌, ◌≤◌, ◌+◌, ◌^◌, List, OnOk, length, take, ℕ};
ghost use Rattle.p9_log.specs.declared.crash.Crash.{Crash};
ghost use Rattle.p9_log.specs.declared.crash.Crash.TheVariants.{Killed, Stopped};
ghost use Rattle.p9_log.specs.Blocks.{content_in};
ghost use Rattle.p9_log.specs.Device.{HasCause, LeavesOnly, Only};
ghost use Rattle.p9_log.specs.Log.{IsRecovered, StillHas};
ghost use Rattle.p9_log.specs.Reading.{IsCutBehind, IsCutTo, IsFound};
ghost use Rattle.p9_log.specs.Rest.{Begin, IsAtRest, Runs};

use crate::crash::Crash;
use crate::device::{Device, DeviceError};
use crate::keeping::keep;
use crate::layout::{HEAD, MARK};
use crate::reading::Found;
use std::alloc::Allocator;

/// Cuts a file that is on the disk.
pub(crate) fn cut_to<D: Device>(device: &mut D, len: usize) -> Result<(), DeviceError>
    requires len { len ≤ length (D.seen device.old) }
    requires durable { Only (D.seen device.old) (D.may_leave device.old Stopped) }
    ensures seen { OnOk result (D.seen device.new ≡ take len (D.seen device.old)) }
    ensures durable { OnOk result (Only (D.seen device.new) (D.may_leave device.new Stopped)) }
    ensures any_moment { (how : Crash) → LeavesOnly D.moment D.left_since how
        (IsCutTo len (D.seen device.old)) device.old device.new }
    ensures cause { HasCause (D.faults device.old) (D.faults device.new) result }
{
    device.cut(len)?;
    device.sync()
}

/// Cuts a file behind its blocks. The gates and the size of a block that doesn't count stay until
/// what is behind them is gone from the disk. Else they might be torn open before it.
fn cut_behind<D: Device>(device: &mut D, end: usize, behind: usize) -> Result<(), DeviceError>
    requires ends { end + behind ≡ length (D.seen device.old) }
    requires near { end ≤ 2 ^ 60 }
    ensures seen { OnOk result (D.seen device.new ≡ take end (D.seen device.old)) }
    ensures durable { OnOk result (Only (D.seen device.new) (D.may_leave device.new Stopped)) }
    ensures any_moment { (how : Crash) → LeavesOnly D.moment D.left_since how
        (IsCutBehind end (D.seen device.old)) device.old device.new }
    ensures cause { HasCause (D.faults device.old) (D.faults device.new) result }
{
    device.sync()?;
    cut_to(device, end + behind.min(HEAD))?;
    cut_to(device, end)
}

/// Writes a mark behind blocks that are on the disk and whose sync gates are all open. The rest of
/// the mark is written only once its closed sync gate is on the disk.
pub(crate) fn mark_end<D: Device>(device: &mut D, end: usize) -> Result<(), DeviceError>
    requires end { length (D.seen device.old) ≡ end }
    requires near { end ≤ 2 ^ 60 }
    requires blocks { (how : Crash) → Runs how (D.seen device.old)
        (content_in Stopped (D.seen device.old)) how }
    requires durable { Only (D.seen device.old) (D.may_leave device.old Stopped) }
    ensures at_rest { OnOk result (IsAtRest (D.seen device.new) end (end + 10)) }
    ensures len { OnOk result (length (D.seen device.new) ≡ end + 12) }
    ensures content { OnOk result ((how : Crash) → content_in how (D.seen device.new)
        ≡ content_in Stopped (D.seen device.old)) }
    ensures front { OnOk result (Begin (end + 1) (D.seen device.new)
        (D.may_leave device.new Stopped)) }
    ensures any_moment { (kind : Crash) → LeavesOnly D.moment D.left_since kind
        (StillHas kind (content_in Stopped (D.seen device.old))) device.old device.new }
    ensures cause { HasCause (D.faults device.old) (D.faults device.new) result }
{
    device.write_at(end, &[0])?;
    device.sync()?;
    device.write_at(end + 1, &MARK[1..])
}

/// Repairs the end of a file whose blocks were read, and brings all of them to the disk.
pub(crate) fn repair<D: Device, A: Allocator>(
    device: &mut D,
    how: Crash,
    found: &Found<A>,
) -> Result<(), DeviceError>
    requires found { IsFound how (D.seen device.old) found.now.bytes.items found.now.end
        found.now.behind found.now.kept }
    requires near { found.now.end ≤ 2 ^ 60 }
    ensures at_rest { OnOk result (IsAtRest (D.seen device.new) found.now.end
        (found.now.end + 10)) }
    ensures len { OnOk result (length (D.seen device.new) ≡ found.now.end + 12) }
    ensures content { OnOk result ((next : Crash) → content_in next (D.seen device.new)
        ≡ content_in how (D.seen device.old)) }
    ensures front { OnOk result (Begin (found.now.end + 1) (D.seen device.new)
        (D.may_leave device.new Stopped)) }
    ensures any_moment { (kind : Crash) → LeavesOnly D.moment D.left_since kind
        (IsRecovered how kind (D.seen device.old)) device.old device.new }
    ensures cause { HasCause (D.faults device.old) (D.faults device.new) result }
{
    cut_behind(device, found.end, found.behind)?;
    match found.kept {
        Some(kept) => keep(device, kept, found.end),
        None => mark_end(device, found.end),
    }
}
