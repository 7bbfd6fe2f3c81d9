//! Files that grow, with each request for memory refused in turn: a request that makes a file longer
//! changes all that it asks for, or nothing.

use crate::export::exchange::{exchange, exchange_all, row_of};
use crate::export::exporters::exporter;
use crate::export::sent_again::{grow_refused, is_answered};
use crate::samples::SMALL;
use p9_export::Export;
use p9_tree::Tree;
use std::alloc::Global;
use std::process::Abort;

/// What makes a file of the sample world longer.
#[derive(Clone, Copy)]
pub struct Growth<'a> {
    /// The requests of session 1 before memory is refused.
    pub ready: &'a str,
    /// The reading of the clock after them.
    pub now: u32,
    /// Requests that need no memory, which come first.
    pub first: &'a str,
    pub steps: &'a [Step<'a>],
}

/// A request that makes the file longer, and what shows how the file is before it and after it.
#[derive(Clone, Copy)]
pub struct Step<'a> {
    pub before: &'a str,
    pub grows: &'a str,
    pub after: &'a str,
}

/// The sample world with session 1.
pub fn before_growth<T: Tree>(
    rt: &impl Abort,
    alloc: Global,
    memory: T::Alloc,
    growth: Growth<'_>,
    reply: &mut [u8],
) -> Export<T> {
    let mut export = exporter(rt, memory, SMALL, &[]);
    get_ready(rt, alloc, &mut export, growth.ready, reply);
    export
}

// Begins session 1.
fn get_ready<T: Tree>(
    rt: &impl Abort,
    alloc: Global,
    export: &mut Export<T>,
    ready: &str,
    reply: &mut [u8],
) {
    export.open(1).expect(rt, "a session");
    exchange_all(rt, alloc, export, 0, ready, reply);
}

/// Makes the file longer at each step.
pub fn grow_all<T: Tree>(
    rt: &impl Abort,
    alloc: Global,
    export: &mut Export<T>,
    growth: Growth<'_>,
    reply: &mut [u8],
) {
    exchange_all(rt, alloc, export, growth.now, growth.first, reply);
    for step in growth.steps {
        grow_again(rt, alloc, export, growth.now, *step, reply);
    }
}

// Sends a request, and again where an allocation failed: all is then as before.
fn grow_again<T: Tree>(
    rt: &impl Abort,
    alloc: Global,
    export: &mut Export<T>,
    now: u32,
    step: Step<'_>,
    reply: &mut [u8],
) {
    let grows = row_of(rt, step.grows);
    if !is_answered(rt, alloc, export, now, grows, reply) {
        exchange_all(rt, alloc, export, now, step.before, reply);
        exchange(rt, alloc, export, now, grows, reply);
    }
    exchange_all(rt, alloc, export, now, step.after, reply);
}

// Glenda's session 1. Fid 1 is /a, and fid 2 its file.
const READY: &str = "\
1 13000000 64 ffff 00200000 0600 395032303030 = 13000000 65 ffff 00200000 0600 395032303030
1 19000000 68 0100 00000000 ffffffff 0600 676c656e6461 0000 = 14000000 69 0100 80 00000000 \
0000000000000000
1 14000000 6e 0200 00000000 01000000 0100 0100 61 = 16000000 6f 0200 0100 80 00000000 \
0100000000000000
1 17000000 6e 0300 00000000 02000000 0200 0100 61 0100 66 = 23000000 6f 0300 0200 80 00000000 \
0100000000000000 00 00000000 0300000000000000";

// With an atime, and with a group that glenda may not give: a refusal is the same where memory
// would run out.
const REFUSED: &str = "\
1 3f000000 7e 0100 02000000 3200 3000 ffff ffffffff ff ffffffff ffffffffffffffff 80010000 \
05000000 ffffffff 2823000000000000 0100 67 0000 0000 0000 = 1f000000 6b 0100 1600 \
7773746174206f662061206669786564206669656c64
1 42000000 7e 0100 02000000 3500 3300 ffff ffffffff ff ffffffff ffffffffffffffff 80010000 \
ffffffff ffffffff 2823000000000000 0100 67 0000 0300 737973 0000 = 1a000000 6b 0100 1100 \
7065726d697373696f6e2064656e696564";

// At the time 7 the file gets the mode 600, the name g and 9,000 bytes.
const FIRST: &str = "\
1 3f000000 7e 0100 02000000 3200 3000 ffff ffffffff ff ffffffff ffffffffffffffff 80010000 \
ffffffff ffffffff 2823000000000000 0100 67 0000 0000 0000 = 07000000 7f 0100";

// Then it gets 20,000 bytes and the mtime 9.
const SECOND: &str = "\
1 3e000000 7e 0100 02000000 3100 2f00 ffff ffffffff ff ffffffff ffffffffffffffff ffffffff \
ffffffff 09000000 204e000000000000 0000 0000 0000 0000 = 07000000 7f 0100";

// The stats of the directory and the file at first.
const AT_FIRST: &str = "\
1 0b000000 7c 0100 01000000 = 4d000000 7d 0100 4400 4200 0000 00000000 80 00000000 \
0100000000000000 ed010080 00000000 00000000 0000000000000000 0100 61 0600 676c656e6461 0600 \
676c656e6461 0600 676c656e6461
1 0b000000 7c 0100 02000000 = 4d000000 7d 0100 4400 4200 0000 00000000 00 00000000 \
0300000000000000 a4010000 00000000 00000000 0200000000000000 0100 66 0600 676c656e6461 0600 \
676c656e6461 0600 676c656e6461";

// Their stats after the first wstat.
const ONCE: &str = "\
1 0b000000 7c 0100 01000000 = 4d000000 7d 0100 4400 4200 0000 00000000 80 01000000 \
0100000000000000 ed010080 07000000 07000000 0000000000000000 0100 61 0600 676c656e6461 0600 \
676c656e6461 0600 676c656e6461
1 0b000000 7c 0100 02000000 = 4d000000 7d 0100 4400 4200 0000 00000000 00 01000000 \
0300000000000000 80010000 07000000 07000000 2823000000000000 0100 67 0600 676c656e6461 0600 \
676c656e6461 0600 676c656e6461";

// Their stats after the second.
const TWICE: &str = "\
1 0b000000 7c 0100 01000000 = 4d000000 7d 0100 4400 4200 0000 00000000 80 02000000 \
0100000000000000 ed010080 07000000 07000000 0000000000000000 0100 61 0600 676c656e6461 0600 \
676c656e6461 0600 676c656e6461
1 0b000000 7c 0100 02000000 = 4d000000 7d 0100 4400 4200 0000 00000000 00 02000000 \
0300000000000000 80010000 07000000 09000000 204e000000000000 0100 67 0600 676c656e6461 0600 \
676c656e6461 0600 676c656e6461";

// A wstat that makes a file longer asks for memory once, at each of two times, and the first time
// once more for a new name.
#[test]
fn a_growth_is_done_again_at_each_refusal(rt: HostRuntime) {
    let growth = Growth {
        ready: READY,
        now: 7,
        first: REFUSED,
        steps: &[
            Step {
                before: AT_FIRST,
                grows: FIRST,
                after: ONCE,
            },
            Step {
                before: ONCE,
                grows: SECOND,
                after: TWICE,
            },
        ],
    };
    grow_refused(&rt, rt.alloc(), growth, 3);
}
