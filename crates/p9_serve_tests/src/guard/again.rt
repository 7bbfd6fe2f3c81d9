//! A script over a guard, frame by frame, where a request for memory is refused: a request that is
//! answered `out of memory` is sent again, and an opening that was refused is made again.

use crate::guard::scripts::Script;
use crate::refused_replies::{is_refusal, may_run_out};
use crate::scripts::{Step, step_of};
use p9_export::{OpenError, is_frame};
use p9_guard::Guard;
use p9_testing::bytes_of;
use p9_tree::Tree;
use std::alloc::Global;
use std::process::Abort;

// Opens a session, again where an allocation failed.
fn open_again<T: Tree>(rt: &impl Abort, guard: &mut Guard<T>, session: u32) {
    if guard.open(session) == Err(OpenError::NoMemory) {
        assert!(rt; !guard.live(session));
        assert!(rt; guard.open(session) == Ok(()));
    }
}

// Answers a frame, again where an allocation failed.
fn answer_again<T: Tree>(
    rt: &impl Abort,
    guard: &mut Guard<T>,
    session: u32,
    frame: &[u8],
    now: u32,
    reply: &mut [u8],
) -> usize {
    let mut size = 0;
    for _ in 0..2 {
        assert!(rt; is_frame(frame));
        let room = guard.reply_max(session).expect(rt, "a session");
        assert!(rt; reply.len() >= room);
        size = guard.answer(session, frame, now, reply);
        if !is_refusal(frame, reply.get(..size).unwrap_or(&[])) {
            break;
        }
        assert!(rt; may_run_out(frame));
    }
    size
}

// Does the step of a line, and compares the reply.
fn step_again<T: Tree>(
    rt: &impl Abort,
    alloc: Global,
    guard: &mut Guard<T>,
    line: &str,
    now: u32,
    reply: &mut [u8],
) {
    match step_of(rt, line) {
        Step::Open(session) => open_again(rt, guard, session),
        Step::Send {
            session,
            request,
            reply: wanted,
        } => {
            let frame = bytes_of(alloc, request).expect(rt, "hexadecimal digits");
            let wanted = bytes_of(alloc, wanted).expect(rt, "hexadecimal digits");
            let size = answer_again(rt, guard, session, frame.as_slice(), now, reply);
            assert!(rt; reply.get(..size) == Some(wanted.as_slice()));
        }
    }
}

/// Plays the script, and compares each reply.
pub fn play_again<T: Tree>(rt: &impl Abort, alloc: Global, guard: &mut Guard<T>, script: &Script) {
    let mut room = vec![in alloc; 0u8; 8_192].expect(rt, "memory");
    for line in script.steps.lines() {
        step_again(rt, alloc, guard, line, script.now, room.as_mut_slice());
    }
}
