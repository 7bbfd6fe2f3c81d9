//! Playing events.

ghost use Rattle.std.specs.Prelude.{◌≡◌, ◌*◌, IfOk, OnOk, length, map};
ghost use Rattle.p9_step.specs.Event.{Open, Message, Close};
ghost use Rattle.p9_play.specs.Play.{Plays, PlaysAll};
ghost use Rattle.p9_export.specs.Event.{event_view};
ghost use Rattle.p9_wire.specs.Frame.{msize_max};

use crate::line::print_hex;
use crate::machine::Machine;
use p9_base::NoMemory;
use p9_export::{Event, OpenError, is_frame};
use p9_prepared::print_line;
use p9_wire::MSIZE_MAX;
use std::alloc::Allocator;

// A frame of the session of this name, at a reading of the clock.
#[derive(Clone, Copy)]
struct Request<'a> {
    name: u32,
    frame: &'a [u8],
    clock: u32,
}

/// Plays events on a machine, and prints for each request a line, its reply in lower case
/// hexadecimal, and for each event that doesn't fit the line `skip`.
///
/// An allocation that fails ends it, also in opening a session; the events before are done.
pub(crate) fn play_events<M: Machine, A: Allocator + Copy>(
    machine: &mut M,
    events: &[Event<A>],
    out: &mut Vec<u8, A>,
) -> Result<(), NoMemory>
    ensures { OnOk result
        (PlaysAll (map event_view events.now) (M.state machine.old) out.old.items out.new.items) }
{
    let mut reply = zeros(*out.allocator(), MSIZE_MAX as usize)?;
    let mut digits = zeros(*out.allocator(), 2 * MSIZE_MAX as usize)?;
    let reply = reply.as_mut_slice();
    let digits = digits.as_mut_slice();
    for event in events {
        play_event(machine, event, reply, digits, out)?;
    }
    Ok(())
}

// A buffer of this size.
fn zeros<A: Allocator + Copy>(alloc: A, size: usize) -> Result<Vec<u8, A>, NoMemory>
    ensures { IfOk result (λ zeros. length zeros.items ≡ size) }
{
    Ok(vec![in alloc; 0u8; size]?)
}

// Plays an event, with buffers for its reply and for the digits of that.
fn play_event<M: Machine, A: Allocator + Copy>(
    machine: &mut M,
    event: &Event<A>,
    reply: &mut [u8],
    digits: &mut [u8],
    out: &mut Vec<u8, A>,
) -> Result<(), NoMemory>
    requires reply { length reply.old ≡ msize_max }
    requires digits { length digits.old ≡ 2 * msize_max }
    ensures { OnOk result
        (Plays (event_view event.now) (M.state machine.old) (M.state machine.new) out.old.items
        out.new.items) }
{
    match event {
        Event::Open(name) => open(machine, *name, out),
        Event::Message(name, frame, clock) => {
            let request = Request {
                name: *name,
                frame: frame.as_slice(),
                clock: *clock,
            };
            answer(machine, request, reply, digits, out)
        }
        Event::Close(name, clock) => close(machine, *name, *clock, out),
    }
}

// Prints nothing for an opening that fits.
fn open<M: Machine, A: Allocator + Copy>(
    machine: &mut M,
    name: u32,
    out: &mut Vec<u8, A>,
) -> Result<(), NoMemory>
    ensures { OnOk result
        (Plays (Open name) (M.state machine.old) (M.state machine.new) out.old.items
        out.new.items) }
{
    match machine.open(name) {
        Ok(()) => Ok(()),
        Err(OpenError::Live) => print_line("skip", out),
        Err(OpenError::NoMemory) => Err(NoMemory),
    }
}

// Prints the reply to a frame that fits.
fn answer<M: Machine, A: Allocator + Copy>(
    machine: &mut M,
    request: Request<'_>,
    reply: &mut [u8],
    digits: &mut [u8],
    out: &mut Vec<u8, A>,
) -> Result<(), NoMemory>
    requires reply { length reply.old ≡ msize_max }
    requires digits { length digits.old ≡ 2 * msize_max }
    ensures { OnOk result
        (Plays (Message request.entry.name request.entry.frame.now request.entry.clock)
        (M.state machine.old) (M.state machine.new) out.old.items out.new.items) }
{
    let Request { name, frame, clock } = request;
    if !is_frame(frame) {
        return print_line("skip", out);
    }
    match machine.answer(name, frame, clock, reply) {
        Some(size) => print_hex(&reply[..size], digits, out),
        None => print_line("skip", out),
    }
}

// Prints nothing for a closing that fits.
fn close<M: Machine, A: Allocator + Copy>(
    machine: &mut M,
    name: u32,
    clock: u32,
    out: &mut Vec<u8, A>,
) -> Result<(), NoMemory>
    ensures { OnOk result
        (Plays (Close name clock) (M.state machine.old) (M.state machine.new) out.old.items
        out.new.items) }
{
    if !machine.live(name) {
        return print_line("skip", out);
    }
    machine.close(name, clock);
    Ok(())
}
