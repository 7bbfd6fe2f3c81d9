//! Messages in a world where allocations fail: a request that is answered `out of memory` is sent
//! again.

use crate::export::both::{Trial, refusals};
use crate::export::exchange::{Row, exchange, in_session, is_reply, row_of, send};
use crate::export::exporters::{ATTACH, VERSION, exporter};
use crate::export::growth::{Growth, before_growth, grow_all};
use crate::refused_replies::{is_refusal, may_run_out};
use crate::samples::Bind;
use p9_export::Export;
use p9_testing::bytes_of;
use p9_tree::Tree;
use std::alloc::Global;
use std::process::Abort;

/// A world, its binds, how many sessions begin in it, the reading of the clock, the requests that are
/// sent then, and a number above which the number of requests for memory is.
#[derive(Clone, Copy)]
pub struct Script<'a> {
    pub world: &'a str,
    pub binds: &'a [Bind],
    pub sessions: u32,
    pub now: u32,
    pub rows: &'a str,
    pub fewer: u64,
}

/// What is played with each request for memory refused in turn.
#[derive(Clone, Copy)]
pub enum Play<'a> {
    Script(Script<'a>),
    Growth(Growth<'a>),
}

/// Plays the script over each kind of tree with each request for memory refused in turn.
pub fn play_refused(rt: &impl Abort, alloc: Global, script: Script<'_>) {
    let (plain, index) = refusals(rt, alloc, Trial::Play(Play::Script(script)));
    assert!(rt; plain > script.fewer && index > script.fewer);
}

/// A file grows over each kind of tree with each request for memory refused in turn. There are this
/// many requests over each.
pub fn grow_refused(rt: &impl Abort, alloc: Global, growth: Growth<'_>, requests: u64) {
    let (plain, index) = refusals(rt, alloc, Trial::Play(Play::Growth(growth)));
    assert!(rt; plain == requests && index == requests);
}

/// The exporter before memory is refused.
pub fn ready<T: Tree>(
    rt: &impl Abort,
    alloc: Global,
    lent: T::Alloc,
    play: Play<'_>,
    reply: &mut [u8],
) -> Export<T> {
    match play {
        Play::Script(script) => exporter(rt, lent, script.world, script.binds),
        Play::Growth(growth) => before_growth(rt, alloc, lent, growth, reply),
    }
}

/// Plays with the exporter.
pub fn play_again<T: Tree>(
    rt: &impl Abort,
    alloc: Global,
    export: &mut Export<T>,
    play: Play<'_>,
    reply: &mut [u8],
) {
    match play {
        Play::Script(script) => play_script(rt, alloc, export, script, reply),
        Play::Growth(growth) => grow_all(rt, alloc, export, growth, reply),
    }
}

// Begins the sessions and sends the requests, each again where an allocation failed.
fn play_script<T: Tree>(
    rt: &impl Abort,
    alloc: Global,
    export: &mut Export<T>,
    script: Script<'_>,
    reply: &mut [u8],
) {
    for session in 1..=script.sessions {
        begin_again(rt, alloc, export, session, script.now, reply);
    }
    for line in script.rows.lines() {
        exchange_again(rt, alloc, export, script.now, row_of(rt, line), reply);
    }
}

// Begins a session, each step again where an allocation failed.
fn begin_again<T: Tree>(
    rt: &impl Abort,
    alloc: Global,
    export: &mut Export<T>,
    session: u32,
    now: u32,
    reply: &mut [u8],
) {
    if export.open(session).is_err() {
        assert!(rt; !export.live(session));
        export.open(session).expect(rt, "a session");
    }
    exchange_again(
        rt,
        alloc,
        export,
        now,
        in_session(rt, session, VERSION),
        reply,
    );
    exchange_again(
        rt,
        alloc,
        export,
        now,
        in_session(rt, session, ATTACH),
        reply,
    );
}

// Sends a request, again where an allocation failed, and compares the reply.
fn exchange_again<T: Tree>(
    rt: &impl Abort,
    alloc: Global,
    export: &mut Export<T>,
    now: u32,
    row: Row<'_>,
    reply: &mut [u8],
) {
    if !is_answered(rt, alloc, export, now, row, reply) {
        exchange(rt, alloc, export, now, row, reply);
    }
}

/// Sends a request, and compares the reply unless that is `out of memory`. Returns whether it
/// is another one.
pub fn is_answered<T: Tree>(
    rt: &impl Abort,
    alloc: Global,
    export: &mut Export<T>,
    now: u32,
    row: Row<'_>,
    reply: &mut [u8],
) -> bool {
    let frame = bytes_of(alloc, row.request).expect(rt, "hexadecimal digits");
    let answered = send(rt, export, row.session, now, frame.as_slice(), reply);
    is_reply_or_refusal(rt, alloc, frame.as_slice(), answered, row.reply)
}

// Compares the reply to a request unless that is `out of memory`. Returns whether it is another
// one.
fn is_reply_or_refusal(
    rt: &impl Abort,
    alloc: Global,
    request: &[u8],
    reply: &[u8],
    wanted: &str,
) -> bool {
    if is_refusal(request, reply) {
        assert!(rt; may_run_out(request));
        return false;
    }
    is_reply(rt, alloc, reply, wanted);
    true
}
