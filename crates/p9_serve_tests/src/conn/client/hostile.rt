//! Replies of a hostile server, and what they come to. Each request for memory of a listing over such
//! replies is refused in turn.

use crate::conn::client::plays::{fine, is_played, parted};
use std::alloc::Global;
use std::process::Abort;

// The first call of a session, the bytes that it reads, and what that comes to. The session offers an msize
// of 256. A walk is of one name, a read of four bytes, and a write of two. A listing is of at most 100 bytes,
// which is two entries; its stats are those of `f` and `g`, with empty names of users.
const ROWS: &str = "\
clunk: 07000000 79 0000 = done
clunk: 0b000000 6b 0000 0200 6e6f = no
clunk: 07000000 79 0100 = the server answered another tag
clunk: 09000000 6b 0100 0000 = the server answered another tag
clunk: 07000000 79 ffff = the server answered another tag
clunk: 07000000 7b 0000 = the server answered another kind of request
clunk: 06000000 79 0000 = the server sent a frame of a size that is not allowed
clunk: 00000000 79 0000 = the server sent a frame of a size that is not allowed
clunk: 01010000 79 0000 = the server sent a frame of a size that is not allowed
clunk: ffffffff 79 0000 = the server sent a frame of a size that is not allowed
clunk: 08000000 79 0000 00 = the server sent what is no message
clunk: 07000000 78 0000 = the server sent what is no message
clunk: 07000000 67 0000 = the server sent what is no message
clunk: 0a000000 6b 0000 0100 00 = the server sent what is no message
clunk: 0a000000 6b 0000 0100 ff = the server sent what is no message
read: 0f000000 75 0000 04000000 01020304 = done
read: 0b000000 75 0000 00000000 = done
read: 10000000 75 0000 05000000 0102030405 = the server gave what was not asked for
read: 0f000000 75 0000 05000000 01020304 = the server sent what is no message
write: 0b000000 77 0000 02000000 = done
write: 0b000000 77 0000 03000000 = the server gave what was not asked for
write: 0b000000 77 0000 ffffffff = the server gave what was not asked for
write: 0b000000 77 0000 020000 = unexpected end of file
write: 0b000000 77 0000 0200 = unexpected end of file
write: 0b000000 77 0000 02 = unexpected end of file
write: 0b000000 77 0000 = unexpected end of file
write: 0b000000 77 00 = unexpected end of file
write: 0b000000 77 = unexpected end of file
write: 0b000000 = unexpected end of file
write: 0b0000 = unexpected end of file
write: 0b00 = unexpected end of file
write: 0b = unexpected end of file
walk a: 09000000 6f 0000 0000 = file does not exist
walk a: 23000000 6f 0000 0200 80 00000000 0100000000000000 00 00000000 0300000000000000 = the server gave what was not asked for
version: 13000000 65 ffff 00010000 0600 395032303030 = done
version: 13000000 65 ffff 01010000 0600 395032303030 = the server gave what was not asked for
version: 13000000 65 ffff ff000000 0600 395032303030 = the server gave what was not asked for
version: 14000000 65 ffff 00010000 0700 756e6b6e6f776e = the server gave what was not asked for
version: 13000000 65 0000 00010000 0600 395032303030 = the server answered another tag
list_within: 0b000000 75 0000 00000000 = done
list_within: 3d000000 75 0000 32000000 3000 0000 00000000 00 00000000 0100000000000000 00000000 \
    00000000 00000000 0000000000000000 0100 66 0000 0000 0000 0b000000 75 0100 00000000 = done f
list_within: 3d000000 75 0000 32000000 3000 0000 00000000 00 00000000 0100000000000000 00000000 \
    00000000 00000000 0000000000000000 0100 66 0000 0000 0000 \
    3d000000 75 0100 32000000 3000 0000 00000000 00 00000000 0200000000000000 00000000 \
    00000000 00000000 0000000000000000 0100 67 0000 0000 0000 \
    3d000000 75 0200 32000000 3000 0000 00000000 00 00000000 0200000000000000 00000000 \
    00000000 00000000 0000000000000000 0100 67 0000 0000 0000 0b000000 75 0300 00000000 = the directory is too long to be listed
list_within: 0c000000 75 0000 01000000 30 = the server sent a directory entry that is no stat
list_within: 0f000000 75 0000 04000000 3000 0000 = the server sent a directory entry that is no stat
list_within: 0f000000 75 0000 04000000 0200 0000 = the server sent a directory entry that is no stat
list_within: 0d000000 75 0000 02000000 0000 = the server sent a directory entry that is no stat
list_within: 0b000000 75 0100 00000000 = the server answered another tag
";

// A listing of two entries, as in a row.
const LISTING: &str = "\
list_within: 3d000000 75 0000 32000000 3000 0000 00000000 00 00000000 0100000000000000 00000000 \
    00000000 00000000 0000000000000000 0100 66 0000 0000 0000 \
    3d000000 75 0100 32000000 3000 0000 00000000 00 00000000 0200000000000000 00000000 \
    00000000 00000000 0000000000000000 0100 67 0000 0000 0000 0b000000 75 0200 00000000 = done f g";

// Plays a row, where a request for memory of the call is refused. Returns whether one was.
fn is_refused(rt: &impl Abort, alloc: Global, row: &str, refused: u64) -> bool {
    let (call, rest) = parted(rt, row, ": ");
    let (given, wanted) = parted(rt, rest, "= ");
    let mut play = fine(call, 0);
    play.given = given;
    play.refused = refused;
    is_played(rt, alloc, play, wanted)
}

// All rows come to what they say. A listing of two entries takes memory for what is read, for their names
// and for the list: each request is refused in turn.
fn are_answered(rt: &impl Abort, alloc: Global) {
    for row in ROWS.lines() {
        is_refused(rt, alloc, row, 0);
    }
    assert!(rt; !is_refused(rt, alloc, LISTING, 0));
    for refused in 1..10 {
        if !is_refused(rt, alloc, LISTING, refused) {
            assert!(rt; refused > 3);
            return;
        }
    }
}

#[test]
fn a_reply_comes_to_what_it_says(rt: HostRuntime) {
    are_answered(&rt, rt.alloc());
}
