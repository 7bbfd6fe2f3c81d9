//! A file is made longer ahead of the blocks that are added.

ghost use Rattle.std.specs.Prelude.{◌≡◌, ◌≤◌, ◌^◌, IfOk, OnOk, length};
ghost use Rattle.p9_log.specs.declared.crash.Crash.{Crash};
ghost use Rattle.p9_log.specs.Device.{HasCause, IsSameTo, Passes};

use crate::device::{Device, DeviceError};
use crate::layout::{AHEAD, ZEROS};

/// Makes a file of so many bytes longer, where it has fewer than are wanted, and returns how many it
/// has. Zeros are written up to a multiple of [`AHEAD`]. Where more than [`AHEAD`] bytes are missing,
/// nothing is written, since what is written next is long by itself.
pub(crate) fn make_room<D: Device>(
    device: &mut D,
    len: usize,
    wanted: usize,
) -> Result<usize, DeviceError>
    requires len { len ≡ length (D.seen device.old) }
    requires near { wanted ≤ 2 ^ 62 }
    ensures len { IfOk result (λ len. len ≡ length (D.seen device.new)) }
    ensures same { OnOk result (IsSameTo len (D.seen device.old) (D.seen device.new)) }
    ensures crash { (how : Crash) → Passes D.moment D.may_leave D.left_since how (IsSameTo len)
        device.old device.new }
    ensures cause { HasCause (D.faults device.old) (D.faults device.new) result }
{
    if wanted <= len || wanted - len > AHEAD {
        return Ok(len);
    }
    let more = ZEROS.len() - len % AHEAD;
    device.write_at(len, &ZEROS[..more])?;
    Ok(len + more)
}
