//! Logs do as they are told: what is then in their files, and what crashes leave.

use crate::log::devices::{Work, in_memory};
use crate::log::logs::{InMemory, does, found_in, recovers};
use p9_log::{Crash, Recovered};
use p9_testing::bytes_of;
use std::alloc::Global;
use std::process::Abort;

// A crash with the bytes of the file that it left, and behind that a line each for what is done with the
// log, for what is recovered then, where the process is killed and where the machine stops, for the bytes
// of the file, and for how many were left out of the one that the crash left.
//
// A block has a sync gate and a write gate, which are open where they are 01, and its size. A mark is a
// block without bytes, with its sync gate closed. At the end are the gates of the next block, and zeros
// that were written ahead.
const STORIES: [&str; 12] = [
    // A block is written and synced.
    "\
stopped
append ab
left ab -
file 0001 0000000000000000 0101 0200000000000000 6162 0100
sync
left ab ab
file 0101 0000000000000000 0101 0200000000000000 6162 0001 0000000000000000 0100",
    // What is recovered is on the disk.
    "\
killed 0001 0000000000000000 0101 0200000000000000 6162 0100
left ab ab
file 0101 0000000000000000 0101 0200000000000000 6162 0001 0000000000000000 0100",
    // A draft is blocks and a mark.
    "\
stopped 0001 0000000000000000 0101 0200000000000000 6162 0100
begin
draft ab
put
none
left ab ab
file 0101 0200000000000000 6162 0001 0000000000000000 0100",
    // A draft that is put is the log, which goes on from there.
    "\
stopped 0101 0000000000000000 0101 0200000000000000 6162 0001 0000000000000000 0100
begin
draft cd
draft e
put
left cde cde
none
append f
left cdef cde
sync
left cdef cdef",
    // A log that is added to has no draft.
    "\
stopped 0101 0000000000000000 0101 0200000000000000 6162 0001 0000000000000000 0100
begin
draft cd
append e
none
left abe ab",
    // Behind a mark is a block: whole, without its last byte, and with its write gate closed.
    "\
killed 0101 0000000000000000 0101 0100000000000000 65 0001 0000000000000000 0101 0200000000000000 6162 0100
left eab eab",
    "\
stopped 0101 0000000000000000 0101 0100000000000000 65 0001 0000000000000000 0101 0200000000000000 6162 0100
left e e",
    "\
killed 0101 0000000000000000 0101 0100000000000000 65 0001 0000000000000000 0101 0200000000000000 61
left e e",
    "\
killed 0101 0000000000000000 0101 0100000000000000 65 0001 0000000000000000 0100 0200000000000000 6162 0100
left e e",
    // Zeros behind the gates of the next block don't count, nor does a front of a block over them. The log
    // goes on over both.
    "\
killed 0001 0000000000000000 0101 0200000000000000 6162 0100 000000000000000000000000
out 1
append c
left abc ab
sync
left abc abc",
    "\
killed 0001 0000000000000000 0101 0200000000000000 6162 0100 0200000000000000 6300 0000
out 11
left ab ab",
    // A block that ends with zeros is whole.
    "\
killed 0001 0000000000000000 0101 0200000000000000 6100 0100 0000
out 1
append c
file 0101 0000000000000000 0101 0200000000000000 6100 0001 0000000000000000 0101 0100000000000000 63 0100",
];

// What is recovered of the file of a crash.
fn recovered<D: InMemory>(rt: &impl Abort, alloc: Global, crash: &str) -> Recovered<D, Global> {
    let (how, file) = crash.split_once(' ').unwrap_or((crash, ""));
    let file = bytes_of(alloc, file).expect(rt, "hexadecimal digits");
    let how = if how == "killed" {
        Crash::Killed
    } else {
        Crash::Stopped
    };
    found_in(alloc, file.as_slice(), how).expect(rt, "a log")
}

// Whether crashes leave these bytes of a file: where the process is killed, and where the machine stops.
fn leaves<D: InMemory>(alloc: Global, file: &[u8], bytes: &str) -> bool {
    match bytes.split_once(' ') {
        Some((killed, stopped)) => {
            recovers::<D>(alloc, file, Crash::Killed, bytes_in(killed))
                && recovers::<D>(alloc, file, Crash::Stopped, bytes_in(stopped))
        }
        None => false,
    }
}

// The bytes of a word, or none.
fn bytes_in(word: &str) -> &[u8] {
    if word == "-" { b"" } else { word.as_bytes() }
}

// Whether a file has these bytes, and nothing but zeros behind them.
fn has_bytes(alloc: Global, file: &[u8], digits: &str) -> bool {
    match bytes_of(alloc, digits) {
        Ok(bytes) => match file.strip_prefix(bytes.as_slice()) {
            Some(behind) => behind.iter().all(|byte| *byte == 0),
            None => false,
        },
        Err(_) => false,
    }
}

// Whether it goes as a line says.
fn goes<D: InMemory>(alloc: Global, found: &mut Recovered<D, Global>, line: &str) -> bool {
    let (what, rest) = line.split_once(' ').unwrap_or((line, ""));
    match what {
        "left" => leaves::<D>(alloc, found.log.device().file(), rest),
        "file" => has_bytes(alloc, found.log.device().file(), rest),
        "out" => rest.parse() == Ok(found.left_out),
        _ => does(&mut found.log, line),
    }
}

// A log does as it is told.
fn plays<D: InMemory>(rt: &impl Abort, alloc: Global, story: &str) {
    let (crash, lines) = story.split_once('\n').expect(rt, "a crash");
    let mut found = recovered::<D>(rt, alloc, crash);
    for line in lines.lines() {
        assert!(rt; goes(alloc, &mut found, line));
    }
    drop(found);
}

/// Plays all of them.
pub(crate) fn plays_all<D: InMemory>(rt: &impl Abort, alloc: Global) {
    for story in STORIES {
        plays::<D>(rt, alloc, story);
    }
}

#[test]
fn logs_do_as_they_are_told(rt: HostRuntime) {
    in_memory(&rt, rt.alloc(), Work::Tell);
}
