//! What a connection and its session were lent is given back, however the connection ends. And a
//! connection that is made again where an allocation failed.

use crate::conn::plays::{PLAIN, Play, run_play};
use crate::conn::scripted::Answer;

// A version, an attach, a walk that makes fid 1, and its clunk.
const CLUNKED: &str = "\
13000000 64 ffff 00200000 0600 395032303030 > 13000000 65 ffff 00200000 0600 395032303030
19000000 68 0100 00000000 ffffffff 0600 676c656e6461 0000 > \
    14000000 69 0100 80 00000000 0000000000000000
16000000 6e 0200 00000000 01000000 0100 0300 707562 > \
    16000000 6f 0200 0100 80 00000000 0100000000000000
0b000000 78 0300 01000000 > 07000000 79 0300
";

// A version, an attach, a walk that makes fid 1, and an open of it to read. It is left open.
const LEFT_OPEN: &str = "\
13000000 64 ffff 00200000 0600 395032303030 > 13000000 65 ffff 00200000 0600 395032303030
19000000 68 0100 00000000 ffffffff 0600 676c656e6461 0000 > \
    14000000 69 0100 80 00000000 0000000000000000
16000000 6e 0200 00000000 01000000 0100 0300 707562 > \
    16000000 6f 0200 0100 80 00000000 0100000000000000
0c000000 70 0300 01000000 00 > 18000000 71 0300 80 00000000 0100000000000000 e81f0000
";

// All comes in one read, and each of the four replies goes out in one write.
const CALLS: u64 = 5;

// How a connection ends: what comes after the last frame, and what the call after these does. It
// is closed by its caller, by the end of the stream after the last frame or within one, and by a
// size that no frame has.
const ENDS: [(&str, &[Answer]); 4] = [
    ("", &[]),
    ("", &[Answer::Moves(0)]),
    ("1900000068", &[Answer::Moves(0)]),
    ("ffffffff6e0200", &[Answer::Broken]),
];

#[test]
fn a_dropped_connection_gives_all_back(rt: HostRuntime) {
    for rows in [CLUNKED, LEFT_OPEN] {
        for (rest, answers) in ENDS {
            let ended = Play {
                rows,
                rest,
                most: 1_000,
                before: CALLS,
                answers,
                is_closed: !answers.is_empty(),
                times: 11,
                ..PLAIN
            };
            run_play(&rt, rt.alloc(), ended);
        }
    }
}

// Of two connections the two buffers are all that is taken, and no turn takes more of their
// allocator.
#[test]
fn a_connection_is_made_after_each_refusal(rt: HostRuntime) {
    for refused in 1..6 {
        let again = Play {
            rows: CLUNKED,
            refused,
            ..PLAIN
        };
        let (_, was_refused) = run_play(&rt, rt.alloc(), again);
        assert!(rt; was_refused == (refused < 5));
    }
}
