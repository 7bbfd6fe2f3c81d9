//! Each call of the device fails in turn.

use crate::log::devices::{Work, in_memory};
use crate::log::logs::{InMemory, add, count_done, found_in, recovers};
use p9_log::{Crash, Device, Fuse, Log, LogError, create, recover};
use std::alloc::Global;
use std::process::Abort;

/// What is done over a device that fails.
#[derive(Clone, Copy)]
pub(crate) enum Trial {
    /// A log is made, three runs are added, and a sync is behind the second.
    Runs,
    /// A draft takes the place of a log.
    Draft,
}

const RUNS: &str = "append aa\nappend b\nsync\nappend ccc";

const DRAFT: &str = "begin\ndraft de\ndraft f\nput";

// A log of a synced block of the bytes 1 and 2.
const OLD: [u8; 24] = [
    1, 1, 2, 0, 0, 0, 0, 0, 0, 0, 1, 2, 0, 1, 0, 0, 0, 0, 0, 0, 0, 0, 1, 0,
];

// How it went: how many steps were done, and whether the log can be used then.
#[derive(Clone, Copy)]
struct End {
    done: usize,
    is_usable: bool,
}

// The device below a log after these steps, and how they went. A log that can't be used takes no more.
fn end_of<D: Device>(log: Log<D>, steps: &str) -> (D, Option<End>) {
    let mut log = log;
    let done = count_done(&mut log, steps);
    let is_usable = log.is_usable();
    let is_well = is_usable || add(&mut log, b"g") == Err(LogError::Ended);
    let end = if is_well {
        Some(End { done, is_usable })
    } else {
        None
    };
    (log.into_device(), end)
}

// The device after the work, and how it went.
fn work_over<D: Device>(alloc: Global, device: D, trial: Trial) -> (D, Option<End>) {
    let not_begun = Some(End {
        done: 0,
        is_usable: true,
    });
    match trial {
        Trial::Runs => match create(device) {
            Ok(log) => end_of(log, RUNS),
            Err(refused) => (refused.1, not_begun),
        },
        Trial::Draft => match recover(alloc, device, Crash::Stopped) {
            Ok(found) => end_of(found.log, DRAFT),
            Err(refused) => (refused.1, not_begun),
        },
    }
}

// Whether these are the bytes of the runs that were added, or of one more.
fn are_runs(bytes: &[u8], done: usize) -> bool {
    match bytes {
        b"" => done == 0,
        b"aa" => done <= 1,
        b"aab" => done >= 1 && done <= 3,
        b"aabccc" => done >= 3,
        _ => false,
    }
}

// Whether the runs that were added are recovered, or one more. A log that has failed can't be used.
fn has_runs<D: InMemory>(alloc: Global, file: &[u8], end: End) -> bool {
    match found_in::<D>(alloc, file, Crash::Killed) {
        Some(found) => {
            let are_runs = are_runs(&found.bytes, end.done);
            drop(found);
            are_runs && (end.is_usable == (end.done == 4) || end.done == 0)
        }
        None => false,
    }
}

// Whether the draft is recovered where it was put, and else the old bytes. A log whose draft could not be
// written can be used.
fn has_draft<D: InMemory>(alloc: Global, file: &[u8], end: End) -> bool {
    let want: &[u8] = if end.done == 4 { b"def" } else { &[1, 2] };
    (end.is_usable || end.done == 3)
        && recovers::<D>(alloc, file, Crash::Killed, want)
        && recovers::<D>(alloc, file, Crash::Stopped, want)
}

// How many steps are done where the device fails after so many calls, if all is well then.
fn done_at<D: InMemory>(alloc: Global, trial: Trial, calls: usize, short: usize) -> Option<usize> {
    let old: &[u8] = match trial {
        Trial::Runs => &[],
        Trial::Draft => &OLD,
    };
    let device = D::with_file(alloc, old)?;
    let (device, end) = work_over(alloc, Fuse::new(alloc, device, calls, short), trial);
    judged(alloc, device.into_device(), trial, end?)
}

// How many steps were done, if the device has what it is to have.
fn judged<D: InMemory>(alloc: Global, device: D, trial: Trial, end: End) -> Option<usize> {
    let is_well = match trial {
        Trial::Runs => has_runs::<D>(alloc, device.file(), end),
        Trial::Draft => has_draft::<D>(alloc, device.file(), end),
    };
    drop(device);
    if is_well { Some(end.done) } else { None }
}

/// Each call of the device fails, with each number of bytes of a write that is cut short. A log is made and
/// added to in 17 calls, and a draft is put in 14.
pub(crate) fn fail_each_call<D: InMemory>(rt: &impl Abort, alloc: Global, trial: Trial) {
    let needed = match trial {
        Trial::Runs => 17,
        Trial::Draft => 14,
    };
    for calls in 0..=needed {
        for short in 0..16 {
            let done = done_at::<D>(alloc, trial, calls, short).expect(rt, "a log");
            assert!(rt; (done == 4) == (calls == needed), "{calls} calls");
        }
    }
}

#[test]
fn nothing_that_was_added_is_lost(rt: HostRuntime) {
    in_memory(&rt, rt.alloc(), Work::Fail(Trial::Runs));
}

#[test]
fn a_draft_is_put_or_not(rt: HostRuntime) {
    in_memory(&rt, rt.alloc(), Work::Fail(Trial::Draft));
}
