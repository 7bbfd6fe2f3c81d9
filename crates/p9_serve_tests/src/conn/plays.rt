//! Connections of a guard of a small world, each over a stream whose calls answer by a list.
//!
//! Who owns a guard or connections gives them to `drop` at the end, so that how they are dropped is
//! proved once, and not in each owner.

use crate::conn::scripted::{Answer, Counts, Scripted, Tape};
use crate::rows::{add, replies, requests};
use crate::samples::{CERTIFICATE, VAULT};
use linked_list_allocator::LocalHeap;
use p9_cert::read_cert;
use p9_conn::{Conn, Turn};
use p9_guard::Guard;
use p9_index::IndexTree;
use p9_space::MountTable;
use p9_testing::Refusing;
use p9_tree::Tree;
use p9_world::{World, read_world};
use std::alloc::{Allocator, Global};
use std::process::Abort;

/// A stream that is served beside another connection, and what comes of it.
#[derive(Clone, Copy)]
pub struct Play<'a> {
    /// Its requests, with their replies, and what comes behind them, as hexadecimal digits.
    pub rows: &'a str,
    pub rest: &'a str,
    /// How many bytes a call moves at most.
    pub most: usize,
    /// So many calls move as many bytes. Those after them have these answers.
    pub before: u64,
    pub answers: &'a [Answer],
    /// Whether the connection is closed in the end, and whether all replies were written.
    pub is_closed: bool,
    pub is_whole: bool,
    /// What another session then asks, with the replies.
    pub later: &'a str,
    /// How often all this is done.
    pub times: u32,
    /// Which request for memory of the connections is refused.
    pub refused: u64,
}

/// A version and an attach, whose replies are written.
pub const PLAIN: Play<'static> = Play {
    rows: "\
13000000 64 ffff 00200000 0600 395032303030 > 13000000 65 ffff 00200000 0600 395032303030
19000000 68 0100 00000000 ffffffff 0600 676c656e6461 0000 > \
    14000000 69 0100 80 00000000 0000000000000000
",
    rest: "",
    most: 100,
    before: 0,
    answers: &[],
    is_closed: false,
    is_whole: true,
    later: "",
    times: 1,
    refused: 0,
};

/// A version, an attach, and a file `n` in the public directory, in which nothing was made yet. It is
/// opened for writing, to be removed on close, and five bytes are written to it.
pub const WORK: &str = "\
13000000 64 ffff 00200000 0600 395032303030 > 13000000 65 ffff 00200000 0600 395032303030
19000000 68 0100 00000000 ffffffff 0600 676c656e6461 0000 > \
    14000000 69 0100 80 00000000 0000000000000000
16000000 6e 0200 00000000 01000000 0100 0300 707562 > \
    16000000 6f 0200 0100 80 00000000 0100000000000000
13000000 72 0300 01000000 0100 6e a4010000 41 > \
    18000000 73 0300 00 00000000 0400000000000000 e81f0000
1c000000 76 0400 01000000 0000000000000000 05000000 68656c6c6f > 0b000000 77 0400 05000000
";

// A version, an attach, and requests that the work above changes no reply of: a flush, a walk to
// the vault, its removal, which is refused, and a clone of the root.
const ASIDE: &str = "\
13000000 64 ffff 00200000 0600 395032303030 > 13000000 65 ffff 00200000 0600 395032303030
19000000 68 0100 00000000 ffffffff 0600 676c656e6461 0000 > \
    14000000 69 0100 80 00000000 0000000000000000
09000000 6c 0200 0100 > 07000000 6d 0200
18000000 6e 0300 00000000 01000000 0100 0500 7661756c74 > \
    16000000 6f 0300 0100 80 00000000 0200000000000000
0b000000 7a 0400 01000000 > 1a000000 6b 0400 1100 7065726d697373696f6e2064656e696564
11000000 6e 0500 00000000 01000000 0000 > 09000000 6f 0500 0000
";

// More turns than any connection here has.
const TURNS: u32 = 100_000;

// The sessions of the stream, of the connection beside it, and of what comes later.
const ONE: u32 = 1;

const BESIDE: u32 = 2;

const LATER: u32 = 3;

// A guard without sessions.
fn new_guard<T: Tree>(rt: &impl Abort, alloc: T::Alloc) -> Guard<T> {
    let world: World<T> = read_world(alloc, VAULT).expect(rt, "a world");
    let certificate = read_cert(alloc, CERTIFICATE).expect(rt, "a certificate");
    Guard::new(world, MountTable::new(alloc), certificate)
        .ok()
        .expect(rt, "a guard")
}

// The stream of a play.
fn stream_of<S: Tape>(rt: &impl Abort, alloc: Global, play: &Play<'_>) -> S {
    let mut input = requests(rt, alloc, play.rows);
    add(rt, alloc, &mut input, play.rest);
    let mut stream = S::new(alloc, input, play.most);
    for _ in 0..play.before {
        assert!(rt; stream.then(Answer::Moves(play.most)).is_ok());
    }
    for answer in play.answers {
        assert!(rt; stream.then(*answer).is_ok());
    }
    stream
}

// A connection of a session, which is opened. It is made again, with the stream that comes back,
// where an allocation failed.
fn connect<S: Tape, T: Tree, A: Allocator + Copy>(
    rt: &impl Abort,
    lent: A,
    guard: &mut Guard<T>,
    session: u32,
    stream: S,
) -> Conn<S, A> {
    assert!(rt; guard.open(session) == Ok(()));
    match Conn::new(lent, stream, session) {
        Ok(conn) => conn,
        Err((stream, _)) => Conn::new(lent, stream, session)
            .ok()
            .expect(rt, "a connection"),
    }
}

// Gives a connection a turn, and returns whether it has something left to do.
fn is_busy<S: Tape, T: Tree, A: Allocator + Copy>(
    guard: &mut Guard<T>,
    conn: &mut Conn<S, A>,
) -> bool {
    let was_used_up = conn.stream().is_used_up();
    match conn.turn(guard, 0) {
        Turn::Moved => true,
        Turn::Idle => !was_used_up,
        Turn::Closed => false,
    }
}

// Gives two connections a turn each, again and again, until neither has anything left to do.
fn serve<S: Tape, T: Tree, A: Allocator + Copy>(
    guard: &mut Guard<T>,
    one: &mut Conn<S, A>,
    two: &mut Conn<S, A>,
) {
    for _ in 0..TURNS {
        let is_first_busy = is_busy(guard, one);
        if !is_busy(guard, two) && !is_first_busy {
            break;
        }
    }
}

// The connection wrote the replies of a play, or the front of them, and is open or closed, and so
// is its session.
fn is_as_wanted<S: Tape, T: Tree, A: Allocator + Copy>(
    rt: &impl Abort,
    alloc: Global,
    guard: &Guard<T>,
    conn: &Conn<S, A>,
    play: &Play<'_>,
) {
    let is_closed = conn.is_closed();
    assert!(rt; is_closed == play.is_closed && guard.live(conn.session()) != is_closed);
    let wanted = replies(rt, alloc, play.rows);
    let written = conn.stream().output();
    assert!(rt; wanted.as_slice().starts_with(written));
    assert!(rt; wanted.len() == written.len() || !play.is_whole);
}

// The play of the requests that change nothing, in pieces as those of this one.
fn aside_of(play: &Play<'_>) -> Play<'static> {
    Play {
        rows: ASIDE,
        most: play.most,
        ..PLAIN
    }
}

// Serves two connections, of which the second has the requests that change nothing, and is closed
// then. Returns what was done to the first one.
fn serve_both<S: Tape, T: Tree, A: Allocator + Copy>(
    rt: &impl Abort,
    alloc: Global,
    guard: &mut Guard<T>,
    one: &mut Conn<S, A>,
    two: &mut Conn<S, A>,
    play: &Play<'_>,
) -> Counts {
    serve(guard, one, two);
    is_as_wanted(rt, alloc, guard, one, play);
    is_as_wanted(rt, alloc, guard, two, &aside_of(play));
    close(guard, BESIDE);
    one.stream().counts()
}

// Serves a stream beside one of the requests that change nothing, in sessions that are opened here.
// Returns what was done to it.
fn serve_beside<S: Tape, T: Tree, A: Allocator + Copy>(
    rt: &impl Abort,
    alloc: Global,
    lent: A,
    guard: &mut Guard<T>,
    session: u32,
    play: &Play<'_>,
) -> Counts {
    let stream: S = stream_of(rt, alloc, play);
    let beside: S = stream_of(rt, alloc, &aside_of(play));
    let mut one = connect(rt, lent, guard, session, stream);
    let mut two = connect(rt, lent, guard, BESIDE, beside);
    let counts = serve_both(rt, alloc, guard, &mut one, &mut two, play);
    drop(one);
    drop(two);
    counts
}

// Closes a session, if it is open.
fn close<T: Tree>(guard: &mut Guard<T>, session: u32) {
    if guard.live(session) {
        guard.close(session, 0);
    }
}

// Plays once, and closes what is open then.
fn play_once<S: Tape, T: Tree, A: Allocator + Copy>(
    rt: &impl Abort,
    alloc: Global,
    lent: A,
    guard: &mut Guard<T>,
    play: &Play<'_>,
) -> Counts {
    let counts = serve_beside::<S, T, A>(rt, alloc, lent, guard, ONE, play);
    if !play.later.is_empty() {
        let later = Play {
            rows: play.later,
            ..PLAIN
        };
        serve_beside::<S, T, A>(rt, alloc, lent, guard, LATER, &later);
    }
    for session in [ONE, LATER] {
        close(guard, session);
    }
    counts
}

// Plays on one guard. After each time, as much is lent as was lent after the first one, at which a
// collection may keep room. Nothing is lent when the guard is dropped.
fn play_over<S: Tape, T: Tree, A: Allocator + Copy>(
    rt: &impl Abort,
    alloc: Global,
    heap: &LocalHeap,
    lent: T::Alloc,
    memory: A,
    play: &Play<'_>,
) -> Counts {
    let mut guard = new_guard::<T>(rt, lent);
    let counts = play_once::<S, T, A>(rt, alloc, memory, &mut guard, play);
    let used = heap.used();
    for _ in 1..play.times {
        play_once::<S, T, A>(rt, alloc, memory, &mut guard, play);
        assert!(rt; heap.used() == used);
    }
    drop(guard);
    assert!(rt; heap.used() == 0);
    counts
}

/// Plays over a heap that counts its bytes. Returns what was done to the stream, and whether a
/// request for memory was refused.
pub fn run_play(rt: &impl Abort, alloc: Global, play: Play<'_>) -> (Counts, bool) {
    let heap = LocalHeap::new(alloc, 1 << 23).expect(rt, "memory");
    let memory = Refusing::new(&heap);
    memory.refuse(play.refused);
    let counts = play_over::<Scripted, IndexTree<&LocalHeap>, &Refusing<&LocalHeap>>(
        rt, alloc, &heap, &heap, &memory, &play,
    );
    (counts, memory.has_refused())
}
