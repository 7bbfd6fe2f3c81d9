//! What is reported of a failure, to writers that take all of it or fail.

use crate::conn::{Answer, Scripted, Tape};
use p9_serve::report_failure;
use std::alloc::Global;
use std::io;
use std::io::ErrorKind;
use std::process::Abort;

// A stream that takes so many bytes, one a call, of which every second one is interrupted. Then it fails.
fn narrow<S: Tape>(rt: &impl Abort, alloc: Global, room: usize) -> S {
    let mut stream = S::new(alloc, Vec::new(alloc), 1);
    for _ in 0..room {
        for answer in [Answer::Interrupted, Answer::Moves(1)] {
            assert!(rt; stream.then(answer).is_ok());
        }
    }
    assert!(rt; stream.then(Answer::Broken).is_ok());
    stream
}

// Compares the status of a failure, and what a stream of so much room got.
fn is_reported<S: Tape>(
    rt: &impl Abort,
    alloc: Global,
    kind: ErrorKind,
    room: usize,
    status: u8,
    text: &str,
) {
    let mut stream: S = narrow(rt, alloc, room);
    let found = report_failure(&io::Error::from(kind), &mut stream);
    assert!(rt; found == status && stream.output() == text.as_bytes());
    drop(stream);
}

// A failure, how many bytes a writer takes, the status, and what it got.
const FAILURES: [(ErrorKind, usize, u8, &str); 5] = [
    (ErrorKind::OutOfMemory, 100, 3, "out of memory\n"),
    (ErrorKind::AddrInUse, 100, 4, "input or output failed\n"),
    (ErrorKind::Other, 100, 4, "input or output failed\n"),
    (ErrorKind::WouldBlock, 100, 4, "input or output failed\n"),
    (ErrorKind::OutOfMemory, 6, 3, "out of"),
];

#[test]
fn a_failure_is_reported_as_far_as_the_writer_takes_it(rt: HostRuntime) {
    for (kind, room, status, text) in &FAILURES {
        is_reported::<Scripted>(&rt, rt.alloc(), *kind, *room, *status, text);
    }
}
