//! What was written since the last sync is brought to the disk.

ghost use Rattle.std.specs.Prelude.{◌≡◌, ◌+◌, OnOk, length, max};
ghost use Rattle.p9_log.specs.declared.crash.Crash.{Crash};
ghost use Rattle.p9_log.specs.declared.crash.Crash.TheVariants.{Killed, Stopped};
ghost use Rattle.p9_log.specs.Blocks.{content_in};
ghost use Rattle.p9_log.specs.Device.{HasCause, LeavesOnly, Only};
ghost use Rattle.p9_log.specs.Log.{IsKept};
ghost use Rattle.p9_log.specs.Rest.{Begin, IsAtRest, IsSplit};

use crate::device::{Device, DeviceError};
use crate::layout::MARK;

/// Brings all blocks of a file to the disk, which has its front up to the closed sync gate there
/// already. A mark is written behind the blocks, and the gate is opened once all is on the disk.
pub(crate) fn keep<D: Device>(device: &mut D, kept: usize, end: usize) -> Result<(), DeviceError>
    requires split { IsSplit (D.seen device.old) kept end }
    requires front { Begin (kept + 1) (D.seen device.old) (D.may_leave device.old Stopped) }
    ensures at_rest { OnOk result (IsAtRest (D.seen device.new) end (end + 10)) }
    ensures len { OnOk result (length (D.seen device.new)
        ≡ max (length (D.seen device.old)) (end + 12)) }
    ensures written { OnOk result (content_in Killed (D.seen device.new)
        ≡ content_in Killed (D.seen device.old)) }
    ensures synced { OnOk result (content_in Stopped (D.seen device.new)
        ≡ content_in Killed (D.seen device.old)) }
    ensures durable { OnOk result (Only (D.seen device.new) (D.may_leave device.new Stopped)) }
    ensures any_moment { (how : Crash) → LeavesOnly D.moment D.left_since how
        (IsKept how (D.seen device.old)) device.old device.new }
    ensures cause { HasCause (D.faults device.old) (D.faults device.new) result }
{
    device.write_at(end, &MARK)?;
    device.sync()?;
    device.write_at(kept, &[1])?;
    device.sync()
}
