//! Logs over devices in memory, for tests.

ghost use Rattle.std.specs.Prelude.{◌≤◌};

use p9_log::{Crash, Device, HEAD, Log, LogError, MemoryDevice, Recovered, TAIL, recover};
use std::alloc::Global;

// The most bytes that are added at once.
const ADDED_MAX: usize = 8;

/// A device whose file is in memory. What is generic over it is cheaper to prove than what names the
/// device.
pub(crate) trait InMemory: Device {
    /// A device of a file with these bytes.
    fn with_file(alloc: Global, bytes: &[u8]) -> Option<Self>;

    /// The bytes of the file.
    fn file(&self) -> &[u8];
}

impl InMemory for MemoryDevice<Global> {
    fn with_file(alloc: Global, bytes: &[u8]) -> Option<MemoryDevice<Global>> {
        let copy = bytes.to_vec(alloc).ok()?;
        Some(MemoryDevice::new(alloc, copy))
    }

    fn file(&self) -> &[u8] {
        self.bytes()
    }
}

/// What is recovered of a file.
pub(crate) fn found_in<D: InMemory>(
    alloc: Global,
    file: &[u8],
    how: Crash,
) -> Option<Recovered<D, Global>> {
    recover(alloc, D::with_file(alloc, file)?, how).ok()
}

/// Whether these bytes are recovered of a file, and once more of what the recovery leaves.
pub(crate) fn recovers<D: InMemory>(alloc: Global, file: &[u8], how: Crash, bytes: &[u8]) -> bool {
    match found_in::<D>(alloc, file, how) {
        Some(found) => {
            let left = found.log.device().file();
            let is_found = found.bytes.as_slice() == bytes && holds::<D>(alloc, left, bytes);
            drop(found);
            is_found
        }
        None => false,
    }
}

// Whether these bytes are recovered of a file after a machine has stopped.
fn holds<D: InMemory>(alloc: Global, file: &[u8], bytes: &[u8]) -> bool {
    match found_in::<D>(alloc, file, Crash::Stopped) {
        Some(found) => {
            let is_found = found.bytes.as_slice() == bytes;
            drop(found);
            is_found
        }
        None => false,
    }
}

// A buffer with the first eight of these bytes and with room for their block, and where they end.
fn staged(bytes: &[u8]) -> ([u8; HEAD + ADDED_MAX + TAIL], usize)
    ensures low { 10 ≤ result.1 }
    ensures high { result.1 ≤ 18 }
{
    let mut buffer = [0; HEAD + ADDED_MAX + TAIL];
    let count = bytes.len().min(ADDED_MAX);
    let end = HEAD + count;
    buffer[HEAD..end].copy_from_slice(&bytes[..count]);
    (buffer, end)
}

/// Adds at most eight bytes to a log.
pub(crate) fn add<D: Device>(log: &mut Log<D>, bytes: &[u8]) -> Result<(), LogError> {
    let (mut buffer, end) = staged(bytes);
    log.append(&mut buffer, end)
}

// Adds at most eight bytes to the draft of a log.
fn draft<D: Device>(log: &mut Log<D>, bytes: &[u8]) -> Result<(), LogError> {
    let (mut buffer, end) = staged(bytes);
    log.add_to_draft(&mut buffer, end)
}

/// Whether a step succeeds: what is done with the log, and the bytes that are added to it or to its draft.
/// Where there is no draft, nothing is added to one and none is put.
pub(crate) fn does<D: Device>(log: &mut Log<D>, step: &str) -> bool {
    let (what, bytes) = step.split_once(' ').unwrap_or((step, ""));
    match what {
        "append" => add(log, bytes.as_bytes()).is_ok(),
        "sync" => log.sync().is_ok(),
        "begin" => log.begin_draft().is_ok(),
        "draft" => draft(log, bytes.as_bytes()).is_ok(),
        "put" => log.put_draft().is_ok(),
        _ => has_no_draft(log),
    }
}

fn has_no_draft<D: Device>(log: &mut Log<D>) -> bool {
    draft(log, b"z") == Err(LogError::NoDraft) && log.put_draft() == Err(LogError::NoDraft)
}

/// How many steps succeed, each of a line, up to the first that doesn't.
pub(crate) fn count_done<D: Device>(log: &mut Log<D>, steps: &str) -> usize {
    let mut done = 0usize;
    for step in steps.lines() {
        if !does(log, step) {
            break;
        }
        done = done.saturating_add(1);
    }
    done
}
