//! Lists of events, with their replies.

use crate::scripts::{Step, step_of};
use p9_export::Event;
use p9_testing::bytes_of;
use std::alloc::Global;
use std::process::Abort;

/// Events, and their replies.
#[derive(Drop)]
pub struct Run {
    pub events: Vec<Event<Global>, Global>,
    pub replies: Vec<u8, Global>,
}

impl Run {
    /// No event.
    pub fn new(alloc: Global) -> Run {
        Run {
            events: Vec::new(alloc),
            replies: Vec::new(alloc),
        }
    }

    /// Adds an opening.
    pub fn open(&mut self, rt: &impl Abort, session: u32) {
        assert!(rt; self.events.push(Event::Open(session)).is_ok());
    }

    /// Adds a request of a session at a reading of the clock, and its reply.
    pub fn send(
        &mut self,
        rt: &impl Abort,
        session: u32,
        frame: Vec<u8, Global>,
        now: u32,
        reply: &[u8],
    ) {
        let event = Event::Message(session, frame, now);
        assert!(rt; self.events.push(event).is_ok());
        assert!(rt; self.replies.extend_from_slice(reply).is_ok());
    }
}

/// The whole of a script's steps.
pub fn whole(rt: &impl Abort, alloc: Global, steps: &str, now: u32) -> Run {
    let mut run = Run::new(alloc);
    for line in steps.lines() {
        match step_of(rt, line) {
            Step::Open(session) => run.open(rt, session),
            Step::Send {
                session,
                request,
                reply,
            } => {
                let frame = bytes_of(alloc, request).expect(rt, "hexadecimal digits");
                let reply = bytes_of(alloc, reply).expect(rt, "hexadecimal digits");
                run.send(rt, session, frame, now, reply.as_slice());
            }
        }
    }
    run
}
