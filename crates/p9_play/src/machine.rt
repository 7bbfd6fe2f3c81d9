//! What a script is played on.

ghost use Rattle.std.specs.Prelude.{◌≡◌, ◌≤◌, ◌↔◌, Err, None, IfNone, IfSome, IsSome, IsTrue};
ghost use Rattle.std.specs.Prelude.{OnErr, OnOk, false, length, take};
ghost use Rattle.p9_wire.specs.Frame.{is_frame, msize_max};
ghost use Rattle.p9_step.specs.Event.{Open, Message, Close};
ghost use Rattle.p9_step.specs.Memory.{is_no_memory_reply};
ghost use Rattle.p9_step.specs.State.{State, session_at};
ghost use Rattle.p9_step.specs.Step.{step};
ghost use Rattle.p9_export.specs.declared.export.OpenError.TheVariants.{Live};

use p9_export::{Export, OpenError};
use p9_guard::Guard;
use p9_tree::Tree;

/// What a script is played on: an exporter, or a guard over one.
pub(crate) trait Machine {
    ghost state: { Self → State };

    /// Whether a session of this name is open.
    fn live(&self, name: u32) -> bool
        ensures { IsTrue result ↔ IsSome (session_at name (state self.now).sessions) };

    /// Opens a session. Where it returns an error, the machine is unchanged.
    fn open(&mut self, name: u32) -> Result<(), OpenError>
        ensures ok { OnOk result ((session_at name (state self.old).sessions ≡ None)
            × (state self.new ≡ (step (state self.old) (Open name) false).state)) }
        ensures live { (result ≡ Err Live) ↔ IsSome (session_at name (state self.old).sessions) }
        ensures unchanged { OnErr result (state self.new ≡ state self.old) };

    /// Answers one frame of a session at this reading of the clock: writes the reply at the front of
    /// the buffer, and returns its length. It is `None` where no session of this name is open;
    /// nothing changes then.
    fn answer(&mut self, name: u32, frame: &[u8], clock: u32, reply: &mut [u8]) -> Option<usize>
        requires whole { IsTrue (is_frame frame.now) }
        requires room { msize_max ≤ length reply.old }
        ensures live { IsSome result ↔ IsSome (session_at name (state self.old).sessions) }
        ensures unchanged { IfNone result (state self.new ≡ state self.old) }
        ensures within { IfSome result (λ size. size ≤ length reply.new) }
        ensures state { IfSome result (λ size. state self.new
            ≡ (step (state self.old) (Message name frame.now clock)
            (is_no_memory_reply frame.now (take size reply.new))).state) }
        ensures bytes { IfSome result (λ size. take size reply.new
            ≡ (step (state self.old) (Message name frame.now clock) (is_no_memory_reply frame.now
            (take size reply.new))).reply) };

    /// Closes a session at this reading of the clock, and ends its fids.
    fn close(&mut self, name: u32, clock: u32)
        requires { IsSome (session_at name (state self.old).sessions) }
        ensures { state self.new ≡ (step (state self.old) (Close name clock) false).state };
}

impl<T: Tree> Machine for Export<T> {
    ghost state = { λ e. e };

    fn live(&self, name: u32) -> bool {
        Export::live(self, name)
    }

    fn open(&mut self, name: u32) -> Result<(), OpenError> {
        Export::open(self, name)
    }

    fn answer(&mut self, name: u32, frame: &[u8], clock: u32, reply: &mut [u8]) -> Option<usize> {
        self.reply_max(name)?;
        Some(self.message(name, frame, clock, reply))
    }

    fn close(&mut self, name: u32, clock: u32) {
        Export::close(self, name, clock);
    }
}

impl<T: Tree> Machine for Guard<T> {
    ghost state = { λ g. g.state };

    fn live(&self, name: u32) -> bool {
        Guard::live(self, name)
    }

    fn open(&mut self, name: u32) -> Result<(), OpenError> {
        Guard::open(self, name)
    }

    fn answer(&mut self, name: u32, frame: &[u8], clock: u32, reply: &mut [u8]) -> Option<usize> {
        self.reply_max(name)?;
        Some(Guard::answer(self, name, frame, clock, reply))
    }

    fn close(&mut self, name: u32, clock: u32) {
        Guard::close(self, name, clock);
    }
}
