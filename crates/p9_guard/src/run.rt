//! Lists of events, done one after another.

ghost use Rattle.std.specs.Prelude.{◌≡◌, ◌≤◌, ◌+◌, ◌∷◌, [], ◌++◌, Bool, List, ℕ, false};
ghost use Rattle.std.specs.Prelude.{IfErr, IfOk, IsTrue, OnErr, OnOk};
ghost use Rattle.std.specs.Prelude.{length, map, take};
ghost use Rattle.p9_step.specs.Event.{IsEvent, Message, Close, Open};
ghost use Rattle.p9_export.specs.Event.{event_view};
ghost use Rattle.p9_guard.specs.Headline.{HasRun, HasStopped, IsPromised};
ghost use Rattle.p9_guard.specs.Marks.{is_answered};

use crate::guard::Guard;
use p9_base::NoMemory;
use p9_export::{Event, is_frame};
use p9_tree::Tree;
use std::alloc::Allocator;
use thiserror::Error;

/// There was no room for a reply, so a run stopped.
#[derive(Clone, Copy, Debug, PartialEq, Eq, Error)]
#[error("out of memory")]
pub struct Stopped {
    /// How many events are done, from the first on. The others have done nothing.
    pub done: usize,
}

impl<T: Tree> Guard<T> {
    /// Does events, one after another, and appends their replies to the bytes. Each reading of the
    /// clock in them is in seconds since 1970, modulo 2^32. An opening is that of [`Guard::open`], a
    /// message that of [`Guard::answer`], and a closing that of [`Guard::close`].
    ///
    /// An event that doesn't fit does nothing and has no reply: opening a session that is open, a
    /// frame for or the closing of one that isn't, and bytes that are no whole frame. An opening
    /// for which an allocation fails opens nothing.
    ///
    /// What is promised of the events, and of no guard, is
    /// [`every_run_is_promised`](crate::laws::every_run_is_promised), from a new guard's state on.
    ///
    /// Room for a reply is taken before its request is answered. Where that allocation fails the
    /// run stops at that request: the events before it are done, and their replies appended.
    pub fn run<B: Allocator>(
        &mut self,
        events: &[Event<B>],
        bytes: &mut Vec<u8, T::Alloc>,
    ) -> Result<(), Stopped>
        ensures hidden { self.new.hidden ≡ self.old.hidden }
        ensures start { self.new.start ≡ self.old.start }
        ensures ok { OnOk result (HasRun self.old.hidden self.old.state (map event_view events.now)
            self.new.state bytes.old.items bytes.new.items) }
        ensures stopped { IfErr result (λ stopped. HasStopped self.old.hidden self.old.state
            (map event_view events.now) stopped.done self.new.state bytes.old.items
            bytes.new.items) }
    {
        self.well_formed();
        let mut used = bytes.len();
        for (done, event) in events.iter().enumerate() {
            match self.run_event(event, used, bytes) {
                Ok(size) => used += size,
                Err(NoMemory) => {
                    bytes.truncate(used);
                    return Err(Stopped { done });
                }
            }
        }
        bytes.truncate(used);
        Ok(())
    }

    // Does one event: writes its reply after the bytes that are used, and returns its length.
    fn run_event<B: Allocator>(
        &mut self,
        event: &Event<B>,
        used: usize,
        bytes: &mut Vec<u8, T::Alloc>,
    ) -> Result<usize, NoMemory>
        requires { used ≤ length bytes.old.items }
        ensures event { IsEvent (event_view event.now) }
        ensures hidden { self.new.hidden ≡ self.old.hidden }
        ensures start { self.new.start ≡ self.old.start }
        ensures kept { take used bytes.new.items ≡ take used bytes.old.items }
        ensures within { IfOk result (λ size. used + size ≤ length bytes.new.items) }
        ensures ok { IfOk result (λ size. (refused : Bool) × (reply : List ℕ)
            × (take (used + size) bytes.new.items ≡ take used bytes.old.items ++ reply)
            × IsPromised self.old.hidden self.old.state ((event_view event.now, refused) ∷ [])
            self.new.state reply) }
        ensures err { OnErr result (self.new ≡ self.old) }
        ensures answered { OnErr result
            (IsTrue (is_answered self.old.state (event_view event.now))) }
    {
        match event {
            Event::Open(name) => {
                let _opened = self.open(*name);
                Ok(0)
            }
            Event::Message(name, frame, clock) => {
                self.run_message(*name, frame.as_slice(), *clock, used, bytes)
            }
            Event::Close(name, clock) => {
                self.run_close(*name, *clock);
                Ok(0)
            }
        }
    }

    // Answers a frame that fits.
    fn run_message(
        &mut self,
        name: u32,
        frame: &[u8],
        clock: u32,
        used: usize,
        bytes: &mut Vec<u8, T::Alloc>,
    ) -> Result<usize, NoMemory>
        requires { used ≤ length bytes.old.items }
        ensures event { IsEvent (Message name frame.now clock) }
        ensures hidden { self.new.hidden ≡ self.old.hidden }
        ensures start { self.new.start ≡ self.old.start }
        ensures kept { take used bytes.new.items ≡ take used bytes.old.items }
        ensures within { IfOk result (λ size. used + size ≤ length bytes.new.items) }
        ensures ok { IfOk result (λ size. (refused : Bool) × (reply : List ℕ)
            × (take (used + size) bytes.new.items ≡ take used bytes.old.items ++ reply)
            × IsPromised self.old.hidden self.old.state ((Message name frame.now clock, refused) ∷ [])
            self.new.state reply) }
        ensures err { OnErr result (self.new ≡ self.old) }
        ensures answered { OnErr result
            (IsTrue (is_answered self.old.state (Message name frame.now clock))) }
    {
        let Some(room) = self.reply_max(name) else {
            return Ok(0);
        };
        if !is_frame(frame) {
            return Ok(0);
        }
        bytes.resize(used + room, 0)?;
        let reply = &mut bytes.as_mut_slice()[used..];
        Ok(self.answer(name, frame, clock, reply))
    }

    // Closes a session that is open.
    fn run_close(&mut self, name: u32, clock: u32)
        ensures event { IsEvent (Close name clock) }
        ensures hidden { self.new.hidden ≡ self.old.hidden }
        ensures start { self.new.start ≡ self.old.start }
        ensures promised { IsPromised self.old.hidden self.old.state ((Close name clock, false) ∷ [])
            self.new.state [] }
    {
        if self.live(name) {
            self.close(name, clock);
        }
    }
}
