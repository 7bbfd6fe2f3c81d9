//! A stream whose client may attach as some users only.

use crate::conn::scripted::{Answer, Scripted, Tape};
use crate::rows::{replies, requests};
use p9_base::User;
use p9_restricted::Restricted;
use p9_testing::Refusing;
use std::alloc::{Allocator, Global};
use std::io::{ErrorKind, Read};
use std::process::Abort;

// Requests as hexadecimal digits: as they are sent, and behind `>` as they are read where anna
// alone may attach.
//
// A version, attaches as anna, as glenda, and as a user of one letter, an auth for glenda, and a
// walk. Then come attaches that name no user: by an empty name, by one that is no text, by one
// that goes on past its frame, and by a frame that is too short for a name. At the end are
// attaches by 63 letters, which a user's name may have, and by 64.
const FRAMES: &str = "\
13000000 64 ffff 00200000 0600 395032303030 > 13000000 64 ffff 00200000 0600 395032303030
17000000 68 0100 00000000 ffffffff 0400 616e6e61 0000 > \
    17000000 68 0100 00000000 ffffffff 0400 616e6e61 0000
19000000 68 0100 01000000 ffffffff 0600 676c656e6461 0000 > \
    19000000 68 0100 01000000 ffffffff 0600 202020202020 0000
16000000 68 0200 02000000 ffffffff 0100 61 0200 2f78 > \
    16000000 68 0200 02000000 ffffffff 0100 20 0200 2f78
15000000 66 0300 03000000 0600 676c656e6461 0000 > \
    15000000 66 0300 03000000 0600 676c656e6461 0000
16000000 6e 0400 00000000 01000000 0100 0300 707562 > \
    16000000 6e 0400 00000000 01000000 0100 0300 707562
13000000 68 0500 04000000 ffffffff 0000 0000 > 13000000 68 0500 04000000 ffffffff 0000 0000
16000000 68 0600 05000000 ffffffff 0300 67ff65 0000 > \
    16000000 68 0600 05000000 ffffffff 0300 67ff65 0000
17000000 68 0700 06000000 ffffffff 0700 676c656e6461 > \
    17000000 68 0700 06000000 ffffffff 0700 676c656e6461
10000000 68 0800 07000000 ffffffff 06 > 10000000 68 0800 07000000 ffffffff 06
52000000 68 0900 08000000 ffffffff 3f00 \
    676767676767676767676767676767676767676767676767676767676767676767676767676767676767 \
    676767676767676767676767676767676767676767 0000 > \
    52000000 68 0900 08000000 ffffffff 3f00 \
    202020202020202020202020202020202020202020202020202020202020202020202020202020202020 \
    202020202020202020202020202020202020202020 0000
53000000 68 0a00 09000000 ffffffff 4000 \
    676767676767676767676767676767676767676767676767676767676767676767676767676767676767 \
    67676767676767676767676767676767676767676767 0000 > \
    53000000 68 0a00 09000000 ffffffff 4000 \
    676767676767676767676767676767676767676767676767676767676767676767676767676767676767 \
    67676767676767676767676767676767676767676767 0000
";

// Behind a size that no frame has, nothing is masked.
const BROKEN: [&str; 2] = [
    "06000000 19000000 68 0100 01000000 ffffffff 0600 676c656e6461 0000 > \
    06000000 19000000 68 0100 01000000 ffffffff 0600 676c656e6461 0000",
    "01001000 19000000 68 0100 01000000 ffffffff 0600 676c656e6461 0000 > \
    01001000 19000000 68 0100 01000000 ffffffff 0600 676c656e6461 0000",
];

// More reads than any stream here needs.
const READS: u32 = 100_000;

// The most bytes of a read here.
const ROOM: usize = 256;

// All that a stream gives, in reads of so much room.
fn all_of<S: Tape, A: Allocator>(
    rt: &impl Abort,
    alloc: Global,
    stream: &mut Restricted<S, A>,
    room: usize,
) -> Vec<u8> {
    let mut all = Vec::new(alloc);
    for _ in 0..READS {
        let mut bytes = [0; ROOM];
        match stream.read(&mut bytes[..room.min(ROOM)]) {
            Ok(count) => assert!(rt; all.extend_from_slice(&bytes[..count]).is_ok()),
            Err(error) => {
                if error.kind() != ErrorKind::Interrupted && stream.stream().is_used_up() {
                    break;
                }
            }
        }
    }
    all
}

// The users of whom there is one, anna.
fn anna<A: Allocator + Copy>(rt: &impl Abort, lent: A) -> Vec<User, A> {
    let mut users = Vec::new(lent);
    let anna = User::new("anna").expect(rt, "a user's name");
    assert!(rt; users.push(anna).is_ok());
    users
}

// Reads where anna alone may attach, in reads of so much room. The users are all that is in the
// memory of such a stream: no read takes more, whatever the pieces.
fn is_read<S: Tape>(rt: &impl Abort, alloc: Global, stream: S, room: usize, wanted: &[u8]) {
    let memory = Refusing::new(alloc);
    let mut restricted = Restricted::new(stream, anna(rt, &memory));
    memory.refuse(1);
    let all = all_of(rt, alloc, &mut restricted, room);
    assert!(rt; all.as_slice() == wanted && !memory.has_refused());
    drop(restricted);
}

// Pieces of this length, and reads of as much room and less. Of 256 bytes there are many frames
// and a part of one.
fn is_read_by<S: Tape>(rt: &impl Abort, alloc: Global, most: usize) {
    let wanted = replies(rt, alloc, FRAMES);
    for room in 1..26 {
        let stream = S::new(alloc, requests(rt, alloc, FRAMES), most);
        is_read(rt, alloc, stream, room, wanted.as_slice());
    }
}

// A stream whose first read moves so many bytes. The next one would block, and another is
// interrupted.
fn cut_stream<S: Tape>(rt: &impl Abort, alloc: Global, rows: &str, cut: usize) -> S {
    let mut stream = S::new(alloc, requests(rt, alloc, rows), ROOM);
    for answer in [Answer::Moves(cut), Answer::WouldBlock, Answer::Interrupted] {
        assert!(rt; stream.then(answer).is_ok());
    }
    stream
}

// All in two pieces, and in one.
fn is_cut<S: Tape>(rt: &impl Abort, alloc: Global, rows: &str) {
    let wanted = replies(rt, alloc, rows);
    for cut in 1..wanted.len() {
        let stream: S = cut_stream(rt, alloc, rows, cut);
        is_read(rt, alloc, stream, ROOM, wanted.as_slice());
    }
}

// Frames in pieces of each length up to that of most frames, and cut at each place.
fn are_masked<S: Tape>(rt: &impl Abort, alloc: Global) {
    for most in 1..26 {
        is_read_by::<S>(rt, alloc, most);
    }
    for rows in [FRAMES, BROKEN[0], BROKEN[1]] {
        is_cut::<S>(rt, alloc, rows);
    }
}

#[test]
fn frames_are_masked_in_all_pieces(rt: HostRuntime) {
    are_masked::<Scripted>(&rt, rt.alloc());
}
