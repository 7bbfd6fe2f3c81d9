//! Requests ahead: several reads or writes are sent before the first of their replies is read.

ghost use Rattle.std.specs.Prelude.{◌≡◌, false, true, IfErr, IfOk, IsTrue};
ghost use Rattle.p9_client.specs.Ahead.{ArrivesAll};
ghost use Rattle.p9_client.specs.Reason.{ends};

use crate::error::ClientError;
use crate::replies::Replies;
use crate::session::Session;
use p9_wire::Stream;
use std::alloc::Allocator;

/// The most reads or writes that are sent before the reply to the first of them is read.
pub const AHEAD_MAX: usize = 8;

impl<S: Stream + Drop, A: Allocator + Copy> Session<S, A> {
    // Reads the replies to so many requests that were sent, the first with this tag, in the order in
    // which they come. Where one is not kept, but the session goes on, all others are read too.
    pub(crate) fn receive_replies(
        &mut self,
        first: u16,
        count: usize,
    ) -> Result<Replies<A>, ClientError>
        requires { self.old.failed ≡ false }
        ensures ok { IfOk result (ArrivesAll S.remaining S.contents count self.old self.new) }
        ensures err { IfErr result (λ error. IsTrue (ends error) → self.new.failed ≡ true) }
    {
        let mut replies = Replies::new(self.alloc());
        for at in 0..count {
            self.receive()?;
            let kept = replies.keep(first, count, self.reply());
            if let Err(error) = self.settled(kept) {
                self.drop_replies(count - at - 1)?;
                return Err(error);
            }
        }
        Ok(replies)
    }

    // Reads so many frames, and drops them, where the session has not failed.
    fn drop_replies(&mut self, count: usize) -> Result<(), ClientError>
        ensures failed { self.old.failed ≡ true → self.new.failed ≡ true }
        ensures err { IfErr result (λ error. self.new.failed ≡ true) }
    {
        let mut left = count;
        while left > 0 && !self.is_failed() {
            self.receive()?;
            left -= 1;
        }
        Ok(())
    }
}
