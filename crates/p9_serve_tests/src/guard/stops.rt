//! A list of events over a guard, where a request for memory is refused. A run that stopped goes
//! on with the events that are left. Its bytes are then those of a run without a refusal over the
//! list without the openings and the requests that were refused, and at the place of each such
//! request the reply `out of memory`.

use crate::guard::runs::{Run, whole};
use crate::guard::scripts::Script;
use crate::guard::worlds::guard_of;
use crate::refused_replies::{is_refusal, may_run_out};
use crate::scripts::{Step, step_of};
use byteorder::{ByteOrder, LittleEndian};
use p9_export::Event;
use p9_guard::{Guard, Stopped};
use p9_testing::{Refusing, bytes_of};
use p9_tree::Tree;
use std::alloc::{Allocator, Global};
use std::process::Abort;

// The first of the replies, and those after it.
fn split_reply<'a>(rt: &impl Abort, replies: &'a [u8]) -> (&'a [u8], &'a [u8]) {
    assert!(rt; replies.len() >= 4);
    let size = LittleEndian::read_u32(replies) as usize;
    replies.split_at_checked(size).expect(rt, "a reply")
}

// Adds a request with its reply, if it was not refused. Returns the replies to the later requests.
fn keep_message<'a>(
    rt: &impl Abort,
    alloc: Global,
    kept: &mut Run,
    session: u32,
    request: &str,
    now: u32,
    replies: &'a [u8],
) -> &'a [u8] {
    let (reply, behind) = split_reply(rt, replies);
    let frame = bytes_of(alloc, request).expect(rt, "hexadecimal digits");
    if is_refusal(frame.as_slice(), reply) {
        assert!(rt; may_run_out(frame.as_slice()));
    } else {
        kept.send(rt, session, frame, now, reply);
    }
    behind
}

// What was not refused of the script, whose sessions are never closed. Requests of a session that
// isn't open have no replies.
fn kept<T: Tree>(
    rt: &impl Abort,
    alloc: Global,
    guard: &Guard<T>,
    script: &Script,
    replies: &[u8],
) -> Run {
    let mut kept = Run::new(alloc);
    let mut rest = replies;
    for line in script.steps.lines() {
        match step_of(rt, line) {
            Step::Open(session) if guard.live(session) => kept.open(rt, session),
            Step::Send {
                session,
                request,
                ..
            } if guard.live(session) => {
                rest = keep_message(rt, alloc, &mut kept, session, request, script.now, rest);
            }
            _ => (),
        }
    }
    assert!(rt; rest.is_empty());
    kept
}

// Does the events, and goes on where there was no room for a reply.
fn run_on<T: Tree>(
    rt: &impl Abort,
    guard: &mut Guard<T>,
    events: &[Event<Global>],
    bytes: &mut Vec<u8, T::Alloc>,
) {
    let mut rest = events;
    for _ in 0..2 {
        match guard.run(rest, bytes) {
            Ok(()) => return,
            Err(Stopped { done }) => {
                rest = rest.get(done..).unwrap_or(&[]);
                assert!(rt; matches!(rest.first(), Some(Event::Message(_, _, _))));
            }
        }
    }
    panic!(rt; "stopped twice")
}

// A new guard, where memory is not refused, makes of these events their replies.
fn is_answered<T: Tree>(rt: &impl Abort, lent: T::Alloc, script: &Script, run: &Run) {
    let mut guard = guard_of::<T>(rt, lent, &script.scene);
    let mut bytes = Vec::new(lent);
    assert!(rt; guard.run(run.events.as_slice(), &mut bytes) == Ok(()));
    assert!(rt; bytes.as_slice() == run.replies.as_slice());
    drop(guard);
}

// Runs the script. Without a refusal these are its replies.
fn run_whole<T: Tree, B: Allocator>(
    rt: &impl Abort,
    alloc: Global,
    memory: &Refusing<B>,
    lent: T::Alloc,
    guard: &mut Guard<T>,
    script: &Script,
) -> Vec<u8, T::Alloc> {
    let whole = whole(rt, alloc, script.steps, script.now);
    let mut bytes = Vec::new(lent);
    run_on(rt, guard, whole.events.as_slice(), &mut bytes);
    assert!(rt; memory.has_refused() || bytes.as_slice() == whole.replies.as_slice());
    drop(whole);
    bytes
}

/// Runs the script, and then what was not refused of it where memory is not refused. Returns
/// whether a request was refused.
pub fn run_refused<T: Tree, B: Allocator>(
    rt: &impl Abort,
    alloc: Global,
    memory: &Refusing<B>,
    lent: T::Alloc,
    guard: &mut Guard<T>,
    script: &Script,
) -> bool {
    let bytes = run_whole(rt, alloc, memory, lent, guard, script);
    let was_refused = memory.has_refused();
    memory.refuse(0);
    let kept = kept(rt, alloc, guard, script, bytes.as_slice());
    is_answered::<T>(rt, lent, script, &kept);
    drop(kept);
    was_refused
}
