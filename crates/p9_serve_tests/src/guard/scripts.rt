//! Scripts of sessions over a guard. Their worlds, requests and replies come from outside.

use crate::guard::worlds::{COVER, COVERED_VAULT, Scene};
use crate::samples::{Bind, CERTIFICATE, SMALL, TWO_UNIONS, VAULT};
use crate::scripts::REMOVED;
use p9_space::Order;

/// A scene, the reading of the clock, and the steps.
#[derive(Clone, Copy)]
pub struct Script {
    pub scene: Scene<'static>,
    pub now: u32,
    pub steps: &'static str,
}

/// The scripts that are played with each request for memory refused in turn.
pub const SCRIPTS: [Script; 8] = [
    Script {
        scene: Scene {
            world: TWO_UNIONS,
            without_last: false,
            certificate: "cert 1\ndir 0 0\ndir 0 1\ndir 0 3\n",
            bind: Some(Bind {
                key: 3,
                node: 1,
                order: Order::After,
                create: true,
            }),
        },
        now: 0,
        steps: UNION,
    },
    Script {
        scene: Scene {
            world: TWO_UNIONS,
            without_last: false,
            certificate: "cert 1\ndir 0 0\ndir 0 1\ndir 0 3\n",
            bind: Some(Bind {
                key: 3,
                node: 1,
                order: Order::After,
                create: false,
            }),
        },
        now: 0,
        steps: CLOSED_UNION,
    },
    Script {
        scene: Scene {
            world: SMALL,
            without_last: false,
            certificate: ALL_OF_SMALL,
            bind: None,
        },
        now: 0,
        steps: REMOVED,
    },
    Script {
        scene: Scene {
            world: COVERED_VAULT,
            without_last: false,
            certificate: CERTIFICATE,
            bind: Some(COVER),
        },
        now: 0,
        steps: COVERED,
    },
    Script {
        scene: Scene {
            world: SMALL,
            without_last: false,
            certificate: ALL_OF_SMALL,
            bind: None,
        },
        now: 0,
        steps: APPENDED,
    },
    Script {
        scene: Scene {
            world: SMALL,
            without_last: false,
            certificate: ALL_OF_SMALL,
            bind: None,
        },
        now: 7,
        steps: CHANGED,
    },
    Script {
        scene: Scene {
            world: VAULT,
            without_last: false,
            certificate: CERTIFICATE,
            bind: None,
        },
        now: 0,
        steps: NEAR_THE_VAULT,
    },
    Script {
        scene: Scene {
            world: VAULT,
            without_last: true,
            certificate: CERTIFICATE,
            bind: None,
        },
        now: 0,
        steps: NEAR_THE_VAULT,
    },
];

const ALL_OF_SMALL: &str = "cert 1\ndir 0 0\ndir 0 1\ndir 0 2\n";

// A file is made in /x, whose second member permits creation.
const UNION: &str = "\
open 1
1 13000000 64 ffff 00200000 0600 395032303030 > 13000000 65 ffff 00200000 0600 395032303030
1 19000000 68 0100 00000000 ffffffff 0600 676c656e6461 0000 > \
    14000000 69 0100 80 00000000 0000000000000000
1 14000000 6e 0200 00000000 03000000 0100 0100 78 > \
    16000000 6f 0200 0100 80 00000000 0300000000000000
1 15000000 72 0600 03000000 0300 6e6577 a4010000 01 > \
    18000000 73 0600 00 00000000 0500000000000000 e81f0000
1 19000000 6e 0700 00000000 04000000 0200 0100 75 0300 6e6577 > \
    23000000 6f 0700 0200 80 01000000 0100000000000000 00 00000000 0500000000000000
";

// No member of /x permits creation, so no file is made.
const CLOSED_UNION: &str = "\
open 1
1 13000000 64 ffff 00200000 0600 395032303030 > 13000000 65 ffff 00200000 0600 395032303030
1 19000000 68 0100 00000000 ffffffff 0600 676c656e6461 0000 > \
    14000000 69 0100 80 00000000 0000000000000000
1 14000000 6e 0200 00000000 03000000 0100 0100 78 > \
    16000000 6f 0200 0100 80 00000000 0300000000000000
1 15000000 72 0600 03000000 0300 6e6577 a4010000 01 > \
    2b000000 6b 0600 2200 6d6f756e746564206469726563746f727920666f7262696473206372656174696f6e
1 19000000 6e 0700 00000000 04000000 0200 0100 75 0300 6e6577 > \
    16000000 6f 0700 0100 80 00000000 0100000000000000
";

// A directory is bound over the hidden one, and a file beside it is made, renamed and removed.
const COVERED: &str = "\
open 1
1 13000000 64 ffff 00200000 0600 395032303030 > 13000000 65 ffff 00200000 0600 395032303030
1 19000000 68 0100 00000000 ffffffff 0600 676c656e6461 0000 > \
    14000000 69 0100 80 00000000 0000000000000000
1 11000000 6e 0200 00000000 01000000 0000 > 09000000 6f 0200 0000
1 13000000 72 0300 01000000 0100 6e a4010000 01 > \
    18000000 73 0300 00 00000000 0400000000000000 e81f0000
1 3f000000 7e 0400 01000000 3200 3000 ffff ffffffff ff ffffffff ffffffffffffffff ffffffff \
    ffffffff ffffffff ffffffffffffffff 0100 6b 0000 0000 0000 > \
    07000000 7f 0400
1 18000000 6e 0500 00000000 02000000 0100 0500 7661756c74 > \
    16000000 6f 0500 0100 80 00000000 0100000000000000
1 0c000000 70 0600 02000000 00 > 18000000 71 0600 80 00000000 0100000000000000 e81f0000
1 17000000 74 0700 02000000 0000000000000000 00040000 > 0b000000 75 0700 00000000
1 0b000000 7a 0800 01000000 > 07000000 7b 0800
";

// A file that is only appended to is made, written and read.
const APPENDED: &str = "\
open 1
1 13000000 64 ffff 00200000 0600 395032303030 > 13000000 65 ffff 00200000 0600 395032303030
1 19000000 68 0100 00000000 ffffffff 0600 676c656e6461 0000 > \
    14000000 69 0100 80 00000000 0000000000000000
1 14000000 6e 0200 00000000 01000000 0100 0100 61 > \
    16000000 6f 0200 0100 80 00000000 0100000000000000
1 15000000 72 0300 01000000 0300 6c6f67 80010040 02 > \
    18000000 73 0300 40 00000000 0400000000000000 e81f0000
1 19000000 76 0400 01000000 0000000000000000 02000000 6162 > 0b000000 77 0400 02000000
1 19000000 76 0500 01000000 0000000000000000 02000000 6364 > 0b000000 77 0500 02000000
1 17000000 74 0600 01000000 0000000000000000 0a000000 > 0f000000 75 0600 04000000 61626364
1 0b000000 7c 0700 01000000 > \
    4f000000 7d 0700 4600 4400 0000 00000000 40 02000000 0400000000000000 80010040 00000000 \
    00000000 0400000000000000 0300 6c6f67 0600 676c656e6461 0600 676c656e6461 0600 \
    676c656e6461
";

// A file is renamed and made longer, and other changes are refused.
const CHANGED: &str = "\
open 1
1 13000000 64 ffff 00200000 0600 395032303030 > 13000000 65 ffff 00200000 0600 395032303030
1 19000000 68 0100 00000000 ffffffff 0600 676c656e6461 0000 > \
    14000000 69 0100 80 00000000 0000000000000000
1 17000000 6e 0200 00000000 01000000 0200 0100 61 0100 66 > \
    23000000 6f 0200 0200 80 00000000 0100000000000000 00 00000000 0300000000000000
1 3e000000 7e 0300 01000000 3100 2f00 ffff ffffffff ff ffffffff ffffffffffffffff ffffffff \
    ffffffff ffffffff ffffffffffffffff 0000 0000 0000 0000 > \
    07000000 7f 0300
1 3e000000 7e 0400 01000000 3100 2f00 ffff ffffffff ff ffffffff ffffffffffffffff ffffffff \
    05000000 ffffffff ffffffffffffffff 0000 0000 0000 0000 > \
    1f000000 6b 0400 1600 7773746174206f662061206669786564206669656c64
1 3f000000 7e 0500 01000000 3200 3000 ffff ffffffff ff ffffffff ffffffffffffffff ffffffff \
    ffffffff ffffffff ffffffffffffffff 0100 62 0000 0000 0000 > \
    1c000000 6b 0500 1300 66696c6520616c726561647920657869737473
1 3f000000 7e 0600 01000000 3200 3000 ffff ffffffff ff ffffffff ffffffffffffffff ffffffff \
    ffffffff ffffffff ffffffffffffffff 0100 67 0000 0000 0000 > \
    07000000 7f 0600
1 14000000 6e 0700 00000000 02000000 0100 0100 61 > \
    16000000 6f 0700 0100 80 01000000 0100000000000000
1 0b000000 7c 0800 02000000 > \
    4d000000 7d 0800 4400 4200 0000 00000000 80 01000000 0100000000000000 ed010080 07000000 \
    07000000 0000000000000000 0100 61 0600 676c656e6461 0600 676c656e6461 0600 676c656e6461
1 3e000000 7e 0900 01000000 3100 2f00 ffff ffffffff ff ffffffff ffffffffffffffff ffffffff \
    ffffffff ffffffff 8813000000000000 0000 0000 0000 0000 > \
    07000000 7f 0900
1 0b000000 7c 0a00 01000000 > \
    4d000000 7d 0a00 4400 4200 0000 00000000 00 01000000 0300000000000000 a4010000 07000000 \
    07000000 8813000000000000 0100 67 0600 676c656e6461 0600 676c656e6461 0600 676c656e6461
1 09000000 6c 0b00 0a00 > 07000000 6d 0b00
1 15000000 66 0c00 03000000 0600 676c656e6461 0000 > \
    24000000 6b 0c00 1b00 61757468656e7469636174696f6e206e6f74207265717569726564
";

// The vault is walked to, and its removal is refused before its entries are looked at: so nothing
// tells whether its key, the last node of the world, is gone.
const NEAR_THE_VAULT: &str = "\
open 1
1 13000000 64 ffff 00200000 0600 395032303030 > 13000000 65 ffff 00200000 0600 395032303030
1 19000000 68 0100 00000000 ffffffff 0600 676c656e6461 0000 > \
    14000000 69 0100 80 00000000 0000000000000000
1 18000000 6e 0200 00000000 01000000 0100 0500 7661756c74 > \
    16000000 6f 0200 0100 80 00000000 0200000000000000
1 0b000000 7a 0300 01000000 > 1a000000 6b 0300 1100 7065726d697373696f6e2064656e696564
";
