//! A file that grows to the greatest length. Rows have messages and files of the greatest length.

use crate::export::growth::{Growth, Step};
use crate::export::sent_again::grow_refused;

// Session 1 asks for the greatest msize. Its fid 1 is /a/f, open for reading and writing, and takes
// 1,048,552 bytes at once.
const BEGINNING: &str = "\
1 13000000 64 ffff ffffffff 0600 395032303030 = 13000000 65 ffff 00001000 0600 395032303030
1 19000000 68 0100 00000000 ffffffff 0600 676c656e6461 0000 = 14000000 69 0100 80 00000000 \
0000000000000000
1 17000000 6e 0200 00000000 01000000 0200 0100 61 0100 66 = 23000000 6f 0200 0200 80 00000000 \
0100000000000000 00 00000000 0300000000000000
1 0c000000 70 0300 01000000 02 = 18000000 71 0300 00 00000000 0300000000000000 e8ff0f00";

// The file at first: its stat, and its bytes.
const AT_FIRST: &str = "\
1 0b000000 7c 0500 01000000 = 4d000000 7d 0500 4400 4200 0000 00000000 00 00000000 \
0300000000000000 a4010000 00000000 00000000 0200000000000000 0100 66 0600 676c656e6461 0600 \
676c656e6461 0600 676c656e6461
1 17000000 74 0600 01000000 0000000000000000 64000000 = 0d000000 75 0600 02000000 6869";

// A write after the end makes the file half as long as it may be.
const WRITE: &str = "\
1 18000000 76 0400 01000000 ffff7f0000000000 01000000 78 = 0b000000 77 0400 01000000";

// A wstat makes it as long as it may be.
const WSTAT: &str = "\
1 3e000000 7e 0400 01000000 3100 2f00 ffff ffffffff ff ffffffff ffffffffffffffff ffffffff \
ffffffff ffffffff 0000000100000000 0000 0000 0000 0000 = 07000000 7f 0400";

// The file of half the greatest length, and what is too long for it.
const GROWN: &str = "\
1 0b000000 7c 0700 01000000 = 4d000000 7d 0700 4400 4200 0000 00000000 00 01000000 \
0300000000000000 a4010000 00000000 00000000 0000800000000000 0100 66 0600 676c656e6461 0600 \
676c656e6461 0600 676c656e6461
1 17000000 74 0800 01000000 0000000000000000 03000000 = 0e000000 75 0800 03000000 686900
1 17000000 74 0900 01000000 feff7f0000000000 64000000 = 0d000000 75 0900 02000000 0078
1 3e000000 7e 0400 01000000 3100 2f00 ffff ffffffff ff ffffffff ffffffffffffffff ffffffff \
ffffffff ffffffff 0100000100000000 0000 0000 0000 0000 = 17000000 6b 0400 0e00 \
66696c6520746f6f206c61726765";

// The file of the greatest length, and what is too long for it.
const GROWN_AGAIN: &str = "\
1 0b000000 7c 0a00 01000000 = 4d000000 7d 0a00 4400 4200 0000 00000000 00 02000000 \
0300000000000000 a4010000 00000000 00000000 0000000100000000 0100 66 0600 676c656e6461 0600 \
676c656e6461 0600 676c656e6461
1 17000000 74 0b00 01000000 0000000000000000 03000000 = 0e000000 75 0b00 03000000 686900
1 17000000 74 0c00 01000000 feff7f0000000000 04000000 = 0f000000 75 0c00 04000000 00780000
1 17000000 74 0d00 01000000 feffff0000000000 64000000 = 0d000000 75 0d00 02000000 0000
1 3e000000 7e 0400 01000000 3100 2f00 ffff ffffffff ff ffffffff ffffffffffffffff ffffffff \
ffffffff ffffffff 0100000100000000 0000 0000 0000 0000 = 17000000 6b 0400 0e00 \
66696c6520746f6f206c61726765";

// Each growth asks for memory once, and nothing else does.
#[test]
fn a_large_file_grows_again_at_each_refusal(rt: HostRuntime) {
    let growth = Growth {
        ready: BEGINNING,
        now: 0,
        first: "",
        steps: &[
            Step {
                before: AT_FIRST,
                grows: WRITE,
                after: GROWN,
            },
            Step {
                before: GROWN,
                grows: WSTAT,
                after: GROWN_AGAIN,
            },
        ],
    };
    grow_refused(&rt, rt.alloc(), growth, 2);
}
