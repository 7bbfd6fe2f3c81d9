//! Plays of a session over a server of one file in memory.

use crate::conn::client::answered::{Answered, Seen};
use crate::conn::client::calls::{call, tell};
use crate::conn::client::pieces::{Fault, Pieces};
use p9_client::{AHEAD_MAX, Session, Stream};
use p9_testing::{Refusing, bytes_of};
use std::alloc::{AllocError, Allocator, Global};
use std::io::Cursor;
use std::process::Abort;

/// The msize of the sessions, and the most bytes that a read or a write moves then.
pub const MSIZE: usize = 256;

pub const PIECE: usize = 232;

/// What is played.
#[derive(Clone, Copy)]
pub struct Play<'a> {
    /// A file is put or got, or the words of another call.
    pub call: &'a str,
    /// How many bytes the file has.
    pub len: usize,
    /// What the server does wrong at which request.
    pub fault: Fault,
    pub place: usize,
    /// The number of the stream's call that fails.
    pub broken: usize,
    /// For how many bytes of the file there is room where it is read to.
    pub room: usize,
    /// How many requests come before.
    pub before: usize,
    /// Which request for memory is refused.
    pub refused: u64,
    /// What the server gives in place of its answers, as hexadecimal digits.
    pub given: &'a str,
}

/// A call with a file of so many bytes, where nothing goes wrong.
pub fn fine(call: &str, len: usize) -> Play<'_> {
    Play {
        call,
        len,
        fault: Fault::Nothing,
        place: 0,
        broken: usize::MAX,
        room: usize::MAX,
        before: 0,
        refused: 0,
        given: "",
    }
}

/// What is before and behind a mark in a text.
pub fn parted<'a>(rt: &impl Abort, text: &'a str, mark: &str) -> (&'a str, &'a str) {
    text.split_once(mark).expect(rt, "two parts")
}

// A file of so many bytes.
fn file_of(rt: &impl Abort, alloc: Global, len: usize) -> Vec<u8> {
    let file = (0..len).map(|at| (at % 251) as u8).collect(alloc);
    file.expect(rt, "memory")
}

// Whether a request is answered where the session goes on, and none where it has failed.
fn is_in_step<S: Stream + Drop, A: Allocator + Copy>(session: &mut Session<S, A>) -> bool {
    let is_failed = session.is_failed();
    session.clunk(1).is_ok() != is_failed
}

// Puts the file, or gets one. Adds what that comes to.
fn transfer<S: Stream + Drop, A: Allocator + Copy>(
    session: &mut Session<S, A>,
    is_put: bool,
    file: &[u8],
    out: &mut [u8],
    told: &mut String,
) -> Result<(), AllocError> {
    if is_put {
        tell(&session.write_whole(1, file), told)
    } else {
        tell(&session.read_to(1, &mut Cursor::new(out)), told)
    }
}

// How many requests are on their way at once.
fn ahead_of(play: Play<'_>) -> usize {
    if play.call == "put" {
        return match play.len {
            0 => 0,
            len => len.div_ceil(PIECE).saturating_sub(1).max(1).min(AHEAD_MAX),
        };
    }
    if play.len < PIECE { 1 } else { AHEAD_MAX }
}

// Whether a server has what it is to have where all is done, and so has who got the file.
fn is_done(server: &Pieces, play: Play<'_>, file: &[u8], out: &[u8]) -> bool {
    let is_ahead = server.most_waiting == ahead_of(play);
    server.file.as_slice() == file
        && (play.call == "put" || out == file)
        && (is_ahead || !matches!(play.fault, Fault::Nothing))
}

// Puts the file of a play, or gets it to this place. Adds what that comes to. Returns whether all is as it
// is to be where it is done.
fn is_whole<S: Seen<Server = Pieces>, A: Allocator + Copy>(
    session: &mut Session<S, A>,
    play: Play<'_>,
    file: &[u8],
    out: &mut [u8],
    told: &mut String,
) -> bool {
    out.fill(0);
    if transfer(session, play.call == "put", file, out, told).is_err() {
        return false;
    }
    told.as_str() != "done" || is_done(session.stream().server(), play, file, out)
}

// The same with a file that is made here.
fn play_whole<S: Seen<Server = Pieces>, A: Allocator + Copy>(
    rt: &impl Abort,
    alloc: Global,
    session: &mut Session<S, A>,
    play: Play<'_>,
    told: &mut String,
) {
    let file = file_of(rt, alloc, play.len);
    let mut out = file_of(rt, alloc, play.len.min(play.room));
    let is_whole = is_whole(session, play, file.as_slice(), out.as_mut_slice(), told);
    drop(file);
    drop(out);
    assert!(rt; is_whole);
}

// Adds what a play comes to.
fn play_over<S: Seen<Server = Pieces>, A: Allocator + Copy>(
    rt: &impl Abort,
    alloc: Global,
    session: &mut Session<S, A>,
    lent: A,
    play: Play<'_>,
    told: &mut String,
) {
    if matches!(play.call, "put" | "get") {
        play_whole(rt, alloc, session, play, told);
    } else {
        assert!(rt; call(session, lent, play.call, told).is_ok());
    }
}

// Plays over a session, and compares what that comes to with what is wanted, or with `out of memory`
// where a request for memory was refused. Returns whether one was.
fn comes_to<S: Seen<Server = Pieces>, A: Allocator + Copy, B: Allocator>(
    rt: &impl Abort,
    alloc: Global,
    session: &mut Session<S, A>,
    lent: A,
    memory: &Refusing<B>,
    play: Play<'_>,
    wanted: &str,
) -> bool {
    let mut told = String::new(alloc);
    memory.refuse(play.refused);
    play_over(rt, alloc, session, lent, play, &mut told);
    let was_refused = memory.has_refused();
    let wanted = if was_refused { "out of memory" } else { wanted };
    assert!(rt; told.as_str() == wanted, "{told}");
    was_refused
}

// Sends the requests that come before, each of which is answered.
fn ask_before<S: Stream + Drop, A: Allocator + Copy>(
    rt: &impl Abort,
    session: &mut Session<S, A>,
    count: usize,
) {
    for _ in 0..count {
        assert!(rt; is_in_step(session));
    }
}

// Plays over a stream. A session over a server that answers is in step then.
fn is_played_over<S: Seen<Server = Pieces>, A: Allocator + Copy, B: Allocator>(
    rt: &impl Abort,
    alloc: Global,
    stream: S,
    lent: A,
    memory: &Refusing<B>,
    play: Play<'_>,
    wanted: &str,
) -> bool {
    let mut session = Session::new(lent, stream, MSIZE).expect(rt, "memory");
    ask_before(rt, &mut session, play.before);
    let was_refused = comes_to(rt, alloc, &mut session, lent, memory, play, wanted);
    let is_well = !play.given.is_empty() || is_in_step(&mut session);
    drop(session);
    assert!(rt; is_well);
    was_refused
}

/// Plays, and compares what that comes to. Returns whether a request for memory was refused. A file that is
/// got is there, and one that is put is empty.
pub fn is_played(rt: &impl Abort, alloc: Global, play: Play<'_>, wanted: &str) -> bool {
    let memory = Refusing::new(alloc);
    let len = if play.call == "put" { 0 } else { play.len };
    let mut server = Pieces::new(alloc, file_of(rt, alloc, len), play.fault, play.place);
    server.given = bytes_of(alloc, play.given).expect(rt, "hexadecimal digits");
    let mut stream = Answered::new(alloc, server);
    stream.broken = play.broken;
    is_played_over(rt, alloc, stream, &memory, &memory, play, wanted)
}
