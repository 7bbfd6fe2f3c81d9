//! Writes of the system, each noted with its answer.

ghost use Rattle.std.specs.Prelude.{◌≡◌, ◌<◌, ◌≤◌, ◌++◌, IfOk, OnErr, OnOk, length};
ghost use Rattle.p9_log.specs.declared.crash.Crash.{Crash};
ghost use Rattle.p9_log.specs.Device.{Holds, IsSame, IsWritten};
ghost use Rattle.p9_disk.specs.Crashes.{Goes};
ghost use Rattle.p9_disk.specs.Events.{drafted, faults, is_unsure, seen};

use crate::record::{Call, Record};
use std::fs::File;
use std::io::{Error, ErrorKind, Result, Write};
use std::os::unix::fs::FileExt;

// The last offset of a file is less than this.
const MOST: usize = 1 << 63;

/// Writes all the bytes from this offset on. A write that the system cuts short is gone on with.
pub(crate) fn write_all(file: &File, calls: &mut Record, at: usize, bytes: &[u8]) -> Result<()>
    requires { at ≤ length (seen calls.old.events) }
    ensures written { OnOk result (Holds (seen calls.old.events) at bytes.now
        (seen calls.new.events)) }
    ensures crash { (how : Crash) → Goes how (IsWritten how at bytes.now) calls.old.events
        calls.new.events }
    ensures syncs { is_unsure calls.new.events ≡ is_unsure calls.old.events }
    ensures faults { OnOk result (faults calls.new.events ≡ faults calls.old.events) }
    ensures failed { OnErr result (faults calls.old.events < faults calls.new.events) }
{
    if at >= MOST || bytes.len() >= MOST - at {
        *calls = calls.with(&Call::WriteFailed(at, bytes));
        return Err(Error::from(ErrorKind::FileTooLarge));
    }
    let mut done = 0;
    while done < bytes.len() {
        match write_some(file, at + done, &bytes[done..]) {
            Ok(n) => {
                *calls = calls.with(&Call::Wrote(at + done, &bytes[done..done + n]));
                done += n;
            }
            Err(error) => {
                *calls = calls.with(&Call::WriteFailed(at + done, &bytes[done..]));
                return Err(error);
            }
        }
    }
    Ok(())
}

/// Writes a front of the bytes at this offset. A call that a signal interrupts has done nothing, and is
/// made again.
fn write_some(file: &File, at: usize, bytes: &[u8]) -> Result<usize>
    ensures { IfOk result (λ n. (0 < n) × (n ≤ length bytes.now)) }
{
    for _ in 0..u64::MAX {
        match file.write_at(bytes, at as u64) {
            Ok(0) => return Err(Error::from(ErrorKind::WriteZero)),
            Ok(n) => return Ok(n),
            Err(error) if error.kind() == ErrorKind::Interrupted => {}
            Err(error) => return Err(error),
        }
    }
    Err(Error::from(ErrorKind::Interrupted))
}

/// Writes all the bytes behind those of a draft.
pub(crate) fn add_all(draft: &mut File, calls: &mut Record, bytes: &[u8]) -> Result<()>
    ensures drafted { OnOk result (drafted calls.new.events ≡ drafted calls.old.events
        ++ bytes.now) }
    ensures seen { seen calls.new.events ≡ seen calls.old.events }
    ensures crash { (how : Crash) → Goes how IsSame calls.old.events calls.new.events }
    ensures syncs { is_unsure calls.new.events ≡ is_unsure calls.old.events }
    ensures faults { OnOk result (faults calls.new.events ≡ faults calls.old.events) }
    ensures failed { OnErr result (faults calls.old.events < faults calls.new.events) }
{
    let mut done = 0;
    while done < bytes.len() {
        match add_some(draft, &bytes[done..]) {
            Ok(n) => {
                *calls = calls.with(&Call::DraftAdded(&bytes[done..done + n]));
                done += n;
            }
            Err(error) => {
                *calls = calls.with(&Call::DraftFailed);
                return Err(error);
            }
        }
    }
    Ok(())
}

/// Writes a front of the bytes. A call that a signal interrupts has done nothing, and is made again.
fn add_some(draft: &mut File, bytes: &[u8]) -> Result<usize>
    ensures { IfOk result (λ n. (0 < n) × (n ≤ length bytes.now)) }
{
    for _ in 0..u64::MAX {
        match draft.write(bytes) {
            Ok(0) => return Err(Error::from(ErrorKind::WriteZero)),
            Ok(n) => return Ok(n),
            Err(error) if error.kind() == ErrorKind::Interrupted => {}
            Err(error) => return Err(error),
        }
    }
    Err(Error::from(ErrorKind::Interrupted))
}
