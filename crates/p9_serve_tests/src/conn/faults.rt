//! Streams that fail, at each of their calls, and sizes that no frame has.

use crate::conn::plays::{PLAIN, Play, WORK, run_play};
use crate::conn::scripted::Answer;
use std::alloc::Global;
use std::process::Abort;

// At most 16 bytes a call: the 113 bytes of the requests are read in 8 calls, and the replies of
// 19, 20, 22, 24 and 11 bytes are written in 9.
const READS: u64 = 8;

const WRITES: u64 = 9;

// One more read would block.
const CALLS: u64 = READS + WRITES + 1;

// A version, an attach, and walks to the public directory and to `n`, which is there, as node 4, and
// was written to once.
const FOUND: &str = "\
13000000 64 ffff 00200000 0600 395032303030 > 13000000 65 ffff 00200000 0600 395032303030
19000000 68 0100 00000000 ffffffff 0600 676c656e6461 0000 > \
    14000000 69 0100 80 00000000 0000000000000000
19000000 6e 0200 00000000 01000000 0200 0300 707562 0100 6e > \
    23000000 6f 0200 0200 80 01000000 0100000000000000 00 01000000 0400000000000000
";

// A version, and an attach at `n`, which isn't there: file does not exist.
const GONE: &str = "\
13000000 64 ffff 00200000 0600 395032303030 > 13000000 65 ffff 00200000 0600 395032303030
1f000000 68 0100 00000000 ffffffff 0600 676c656e6461 0600 2f7075622f6e > \
    1c000000 6b 0100 1300 66696c6520646f6573206e6f74206578697374
";

// The work in pieces, after which the file is there.
const DONE: Play<'static> = Play {
    rows: WORK,
    most: 16,
    later: FOUND,
    ..PLAIN
};

// The call after so many others answers so, which closes the connection: the file is gone.
fn ends_at(rt: &impl Abort, alloc: Global, before: u64, answer: Answer) {
    let answers = [answer];
    let ended = Play {
        before,
        answers: &answers,
        is_closed: true,
        is_whole: false,
        later: GONE,
        ..DONE
    };
    let (counts, _) = run_play(rt, alloc, ended);
    assert!(rt; counts.calls == before.saturating_add(1));
}

#[test]
fn a_stream_that_fails_closes_its_connection_alone(rt: HostRuntime) {
    for before in 0..CALLS {
        ends_at(&rt, rt.alloc(), before, Answer::Broken);
        ends_at(&rt, rt.alloc(), before, Answer::Moves(0));
    }
}

// The call after so many others answers so, which closes no connection.
fn waits_at(rt: &impl Abort, alloc: Global, before: u64, answer: Answer) {
    let answers = [answer];
    let waited = Play {
        before,
        answers: &answers,
        ..DONE
    };
    let (counts, _) = run_play(rt, alloc, waited);
    assert!(rt; counts.reads == READS && counts.writes == WRITES);
}

#[test]
fn a_stream_that_is_waited_for_changes_nothing(rt: HostRuntime) {
    for before in 0..CALLS {
        waits_at(&rt, rt.alloc(), before, Answer::WouldBlock);
        waits_at(&rt, rt.alloc(), before, Answer::Interrupted);
    }
}

// Below the least frame, which has 7 bytes, and above the greatest, which has 1,048,576.
const SIZES: [&str; 5] = ["00000000", "04000000", "06000000", "01001000", "ffffffff"];

// What comes before is answered.
#[test]
fn a_broken_size_closes_its_connection(rt: HostRuntime) {
    for size in SIZES {
        let broken = Play {
            rest: size,
            is_closed: true,
            ..PLAIN
        };
        run_play(&rt, rt.alloc(), broken);
    }
}
