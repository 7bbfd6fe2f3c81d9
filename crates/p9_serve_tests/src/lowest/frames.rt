//! The first frame of a stream.

use p9_testing::bytes_of;
use p9_wire::{Frame, frame_of};
use std::alloc::Global;
use std::process::Abort;

// Bytes, and what is at their front: more bytes are needed, it is broken, or it is a frame of so many
// bytes. The longest of the first are an auth whose size says two bytes more than there are, and a
// version with a byte behind it. The others are the requests of the worked examples.
const FRONTS: &str = "\
= need
130000 = need
06000000 = broken
07000000 = need
00000100 = need
01000100 = need
00001000 = need
01001000 = broken
ffffffff = broken
07000000 6d 0300 = 7
17000000 66 0200 03000000 0600 676c656e6461 0000 = need
13000000 64 ffff 00200000 0600 395032303030 00 = 19
13000000 64 ffff 00200000 0600 395032303030 = 19
19000000 68 0100 00000000 ffffffff 0600 676c656e6461 0000 = 25
13000000 64 ffff 00200000 0600 395033303030 = 19
15000000 64 ffff 00200000 0800 3950323030302e75 = 21
13000000 64 ffff ff010000 0600 395032303030 = 19
13000000 64 ffff 00020000 0600 395032303030 = 19
13000000 64 ffff ffffffff 0600 395032303030 = 19
0b000000 78 0100 05000000 = 11
0b000000 78 0100 00000000 = 11
11000000 6e 0200 00000000 01000000 0000 = 17
51000000 6e 0300 00000000 02000000 1000 0200 2e2e 0200 2e2e 0200 2e2e 0200 2e2e 0200 2e2e 0200 \
2e2e 0200 2e2e 0200 2e2e 0200 2e2e 0200 2e2e 0200 2e2e 0200 2e2e 0200 2e2e 0200 2e2e 0200 2e2e \
0200 2e2e = 81
55000000 6e 0400 00000000 03000000 1100 0200 2e2e 0200 2e2e 0200 2e2e 0200 2e2e 0200 2e2e 0200 \
2e2e 0200 2e2e 0200 2e2e 0200 2e2e 0200 2e2e 0200 2e2e 0200 2e2e 0200 2e2e 0200 2e2e 0200 2e2e \
0200 2e2e 0200 2e2e = 85
1d000000 6e 0500 00000000 09000000 0300 0100 61 0100 62 0400 6e6f6e65 = 29
0b000000 7c 0600 09000000 = 11
17000000 6e 0700 00000000 01000000 0200 0100 61 0100 66 = 23
0b000000 7c 0800 01000000 = 11
0c000000 70 0900 01000000 00 = 12
17000000 74 0a00 01000000 0000000000000000 64000000 = 23
17000000 6e 0200 00000000 01000000 0200 0100 78 0100 6e = 23
14000000 6e 0300 00000000 02000000 0100 0100 78 = 20
0c000000 70 0400 02000000 00 = 12
17000000 74 0500 02000000 0000000000000000 00040000 = 23
15000000 72 0600 03000000 0300 6e6577 a4010000 01 = 21
17000000 74 0700 02000000 0000000000000000 43000000 = 23
17000000 74 0800 02000000 0100000000000000 00040000 = 23
17000000 74 0900 02000000 0000000000000000 44000000 = 23
17000000 74 0a00 02000000 4400000000000000 44000000 = 23
17000000 74 0b00 02000000 8800000000000000 44000000 = 23
15000000 66 0200 03000000 0600 676c656e6461 0000 = 21";

#[test]
fn row_frame_sizes(rt: HostRuntime) {
    for row in FRONTS.lines() {
        has_front(&rt, rt.alloc(), row);
    }
}

// The bytes of a row have that at their front.
fn has_front(rt: &impl Abort, alloc: Global, row: &str) {
    let (digits, want) = row.split_once("= ").expect(rt, "digits");
    let bytes = bytes_of(alloc, digits).expect(rt, "hexadecimal digits");
    assert!(rt; is_front(bytes.as_slice(), want), "{row}");
}

// Whether this is at the front. A frame that is cut short at any of its bytes needs more.
fn is_front(bytes: &[u8], want: &str) -> bool {
    match frame_of(bytes) {
        Frame::Need => want == "need",
        Frame::Broken => want == "broken",
        Frame::Whole(size) => want.parse::<usize>().ok() == Some(size) && are_needed(bytes, size),
    }
}

// Whether bytes that are cut short below this size need more.
fn are_needed(bytes: &[u8], size: usize) -> bool {
    for len in 0..size {
        match bytes.get(..len) {
            Some(front) if frame_of(front) == Frame::Need => {}
            _ => return false,
        }
    }
    true
}
