//! Whole files in pieces, of which several are on their way at once.

use crate::conn::client::pieces::fault_of;
use crate::conn::client::plays::{PIECE, Play, fine, is_played, parted};
use p9_base::number;
use std::alloc::Global;
use std::process::Abort;

// A file of so many bytes is put and got.
fn is_put_and_got(rt: &impl Abort, alloc: Global, len: usize) {
    is_played(rt, alloc, fine("put", len), "done");
    is_played(rt, alloc, fine("get", len), "done");
}

// A call with a file of so many bytes, what goes wrong at each place from the first up to the second, and
// what that comes to. A file of 17 pieces has 3,944 bytes. A short reply is not the end, but where no byte
// is written. After a tag that nobody waits for no further reply is waited for. A refusal of a
// read behind the end is dropped. After a refusal the replies to the requests that were sent with
// it are looked at: the requests from 1 to 8 are sent together.
//
// The place of `broken` is that of a call of the stream. A request is sent by one call, and its
// reply read by two: a file of 9 pieces is read by requests for one piece, then for eight, and for
// eight behind its end, and written by the first nine. The place of `room` is for how many pieces
// there is room, and that of `tags` how many requests come before: 65,534 is the greatest tag, and
// the next one is 0.
const ROWS: &str = "\
get 3944 short 0 20 = done
put 3944 short 0 20 = done
put 1 short 0 1 = the server wrote nothing
put 233 short 1 2 = the server wrote nothing
get 3944 late 0 25 = done
put 3944 late 0 25 = done
get 3944 other_tag 0 17 = the server answered another tag
put 3944 other_tag 0 17 = the server answered another tag
get 3944 again 0 17 = the server answered another tag
put 3944 again 0 17 = the server answered another tag
get 3944 refused 0 17 = no
put 3944 refused 0 17 = no
get 3944 refused 18 25 = done
get 3944 refused_and_other 1 8 = the server answered another kind of request
put 3944 refused_and_other 1 8 = the server answered another kind of request
get 3944 more 0 17 = the server gave what was not asked for
put 3944 more 0 17 = the server gave what was not asked for
get 3944 more 18 25 = the server gave what was not asked for
get 3944 other_type 0 25 = the server answered another kind of request
put 3944 other_type 0 17 = the server answered another kind of request
get 232 backwards 0 1 = done
put 232 backwards 0 1 = done
get 464 backwards 0 1 = done
put 464 backwards 0 1 = done
get 2088 backwards 0 1 = done
put 2088 backwards 0 1 = done
get 2320 backwards 0 1 = done
put 2320 backwards 0 1 = done
get 3944 backwards 0 1 = done
put 3944 backwards 0 1 = done
get 6960 backwards 0 1 = done
put 6960 backwards 0 1 = done
get 2088 broken 0 51 = connection reset
put 2088 broken 0 27 = connection reset
get 3944 room 0 17 = failed to write whole buffer
get 3944 tags 65530 65531 = done
put 3944 tags 65530 65531 = done
";

// What goes wrong at a place.
fn with<'a>(play: Play<'a>, what: &str, place: usize) -> Play<'a> {
    let mut play = play;
    match what {
        "broken" => play.broken = place,
        "room" => play.room = place.saturating_mul(PIECE),
        "tags" => play.before = place,
        _ => {
            play.fault = fault_of(what);
            play.place = place;
        }
    }
    play
}

fn number_of(rt: &impl Abort, word: &str) -> usize {
    number(word, 1 << 20).expect(rt, "a number") as usize
}

// Plays a row at each of its places.
fn is_row(rt: &impl Abort, alloc: Global, row: &str) {
    let (asked, wanted) = parted(rt, row, " = ");
    let (call, asked) = parted(rt, asked, " ");
    let (len, asked) = parted(rt, asked, " ");
    let (what, places) = parted(rt, asked, " ");
    let (first, end) = parted(rt, places, " ");
    let play = fine(call, number_of(rt, len));
    for place in number_of(rt, first)..number_of(rt, end) {
        is_played(rt, alloc, with(play, what, place), wanted);
    }
}

// The session goes on, and is in step, where an allocation of the replies fails.
fn are_refused(rt: &impl Abort, alloc: Global, call: &str) {
    for refused in 1..10 {
        let mut play = fine(call, 2_400);
        play.refused = refused;
        assert!(rt; is_played(rt, alloc, play, "done"));
    }
}

// Files of any number of pieces are put and got, and what goes wrong comes to what it is.
fn are_played(rt: &impl Abort, alloc: Global) {
    for pieces in 0..20 {
        for more in [0, 1, 231] {
            is_put_and_got(rt, alloc, pieces * PIECE + more);
        }
    }
    for row in ROWS.lines() {
        is_row(rt, alloc, row);
    }
    are_refused(rt, alloc, "get");
    are_refused(rt, alloc, "put");
}

#[test]
fn files_are_put_and_got_in_pieces(rt: HostRuntime) {
    are_played(&rt, rt.alloc());
}
