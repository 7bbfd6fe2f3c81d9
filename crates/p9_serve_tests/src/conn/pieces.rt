//! Bytes that come and go in pieces, and many frames in one read.

use crate::conn::plays::{PLAIN, Play, WORK, run_play};
use crate::conn::scripted::Answer;
use std::alloc::{AllocError, Global};

// The two requests have 44 bytes. Where the first piece has a whole request, its reply is written
// before the next read. The next read and the first write would block.
#[test]
fn two_frames_are_cut_at_each_place(rt: HostRuntime) {
    for cut in 1..44 {
        let answers = [
            Answer::Moves(cut),
            Answer::WouldBlock,
            Answer::Moves(100),
            Answer::WouldBlock,
        ];
        let cut_there = Play {
            answers: &answers,
            ..PLAIN
        };
        let (counts, _) = run_play(&rt, rt.alloc(), cut_there);
        assert!(rt; counts.reads == 2);
    }
}

// Two sessions beside one another, with pieces of each length, down to one byte a call.
#[test]
fn every_length_of_a_piece_makes_the_same_bytes(rt: HostRuntime) {
    for most in [1, 2, 3, 7, 16, 19, 20, 64, 1_000] {
        let work = Play {
            rows: WORK,
            most,
            ..PLAIN
        };
        run_play(&rt, rt.alloc(), work);
    }
}

// A version and 300 flushes, and the replies to them.
fn flushes(alloc: Global) -> Result<String, AllocError> {
    let mut rows = String::from_str(
        alloc,
        "13000000 64 ffff 00200000 0600 395032303030 > 13000000 65 ffff 00200000 0600 395032303030",
    )?;
    for tag in 1_000..1_300 {
        write!(&mut rows, "\n09000000 6c {tag} ffff > 07000000 6d {tag}")?;
    }
    Ok(rows)
}

// The requests are 2,719 bytes. One read moves them, and each reply has a write, of which the last
// alone is told as the last.
#[test]
fn frames_that_come_in_one_read_are_answered_in_order(rt: HostRuntime) {
    let rows = flushes(rt.alloc()).expect(&rt, "memory");
    let together = Play {
        rows: rows.as_str(),
        most: 10_000,
        ..PLAIN
    };
    let (counts, _) = run_play(&rt, rt.alloc(), together);
    assert!(rt; counts.reads == 1 && counts.writes == 301 && counts.with_more == 300);
}

// Where no whole frame is there, a reply is written as the last one: the last byte comes in the
// second read.
#[test]
fn no_reply_waits_for_a_frame_that_is_cut(rt: HostRuntime) {
    let answers = [Answer::Moves(43)];
    let cut = Play {
        answers: &answers,
        ..PLAIN
    };
    let (counts, _) = run_play(&rt, rt.alloc(), cut);
    assert!(rt; counts.reads == 2 && counts.with_more == 0);
}

// A file `n` in the public directory, open for reading and writing, in a session of the greatest
// msize. 20,000 bytes are written to it by a frame of 20,023, and read back.
fn long_rows(alloc: Global) -> Result<String, AllocError> {
    let data = "61".repeat(alloc, 20_000)?;
    format!(in alloc;
        "13000000 64 ffff ffffffff 0600 395032303030 > 13000000 65 ffff 00001000 0600 395032303030
19000000 68 0100 00000000 ffffffff 0600 676c656e6461 0000 > \
14000000 69 0100 80 00000000 0000000000000000
16000000 6e 0200 00000000 01000000 0100 0300 707562 > \
16000000 6f 0200 0100 80 00000000 0100000000000000
13000000 72 0300 01000000 0100 6e a4010000 02 > \
18000000 73 0300 00 00000000 0400000000000000 e8ff0f00
374e0000 76 0400 01000000 0000000000000000 204e0000 {data} > 0b000000 77 0400 204e0000
17000000 74 0500 01000000 0000000000000000 204e0000 > 2b4e0000 75 0500 204e0000 {data}"
    )
}

#[test]
fn a_long_frame_comes_in_pieces(rt: HostRuntime) {
    let rows = long_rows(rt.alloc()).expect(&rt, "memory");
    let long = Play {
        rows: rows.as_str(),
        most: 1_000,
        ..PLAIN
    };
    run_play(&rt, rt.alloc(), long);
}
