//! Serving an input at an address.

ghost use Rattle.std.specs.Prelude.{IfOk, None, OnErr, OnOk};
ghost use Rattle.std.specs.Io.KnownBytes.{Appends};
ghost use Rattle.p9_commands.specs.Offer.{offer_of};
ghost use Rattle.p9_serve.specs.Rounds.{untold};
ghost use Rattle.p9_serve.specs.Run.{AppendsFront, BreaksOff, ClientSocket, Ends, GivesBack};
ghost use Rattle.p9_serve.specs.Run.{GivesBackTo, IsCutShort, IsOffer, listening};
ghost use Rattle.p9_serve.specs.Served.{HadFewer, HadHostedRounds, WasServed, WasServedTo};

use crate::clock::{MachineTimer, Timer};
use crate::failure::{report_failure, write_text};
use crate::listener::{Listener, Sockets};
use crate::server::Server;
use mio::net::TcpListener;
use p9_base::NoMemory;
use p9_commands::served_guard_over;
use p9_guard::Guard;
use p9_index::IndexTree;
use p9_prepared::status::{DONE, REFUSED};
use p9_tree::Tree;
use std::alloc::{AllocError, Allocator, Global};
use std::io;
use std::io::Write;
use std::net::{Net, SocketAddr};
use std::rt::Clock;

// A block of so many bytes is allocated and freed before the rounds. An allocator as glibc's keeps
// freed memory up to twice the greatest block that was freed, and gives the rest back to the system.
// So the buffers of a client that has left are kept for the next one.
const LARGEST_BLOCK: usize = 1 << 24;

/// Serves an input at an address for a number of rounds, and returns the exit status.
///
/// What the input offers is that of [`served_guard`], and so is what is reported on `err`; where
/// there is nothing to serve the status is 1. Else a listener is made, `out` gets the line
/// `listening ADDR` with the address that it has, and is flushed; then come the rounds, each at the
/// machine's clock in whole seconds since 1970, modulo 2^32, which is read once a round. Before a
/// round comes the rest that [`Server::rest`] gives, at that clock. After the last round all
/// sessions are closed, at its time, and the status is 0. Where an allocation fails the status is 3,
/// and where a listener can't be made, or input or output fails otherwise, it is 4; that is reported
/// on `err`, after what was reported of the input. No more than the line was written to `out` then.
///
/// A status of 0 says that the guard of [`served_guard`] had its whole life: a new server over it,
/// the rounds, one after another, and the end of all sessions. So the theorem holds of that life, as
/// [`every_serving_is_promised`](crate::laws::every_serving_is_promised) says. Which clients came,
/// and what they sent, is not said, since no contract knows what comes over a socket.
///
/// [`served_guard`]: p9_commands::served_guard
pub fn run_serve<R: Net + Clock + AllocGlobal, W: Write, E: Write>(
    rt: &R,
    address: SocketAddr,
    rounds: u64,
    input: &[u8],
    out: &mut W,
    err: &mut E,
) -> u8
    ensures { Ends (offer_of input.now) rounds (record {
      out_before = W.contents out.old;
      out = W.contents out.new;
      err_before = E.contents err.old;
      err = E.contents err.new;
      clock_before = None;
      clock = None;
    }) result }
{
    let mut timer = MachineTimer { rt };
    let stay = Stay { address, rounds };
    match served::<_, IndexTree<Global>, _, _, _>(rt, &mut timer, stay, input, out, err) {
        Ok(Some(_)) => DONE,
        Ok(None) => REFUSED,
        Err(error) => report_failure(&error, err),
    }
}

/// Serves an input to the clients that come to a listener for a number of rounds, and returns the
/// guard as it is left, or nothing where the input offers none.
///
/// What the input offers is that of [`served_guard`], and so is what is reported on `err`. The rounds
/// are those of [`run_serve`], each at a reading of `timer`. After the last one all sessions are
/// closed, at its time. Where an allocation fails, or a reading, or a write to `err`, that is
/// returned, and no more of the reports than a front was written.
///
/// Over a listener that tells who is to come, and streams that tell their bytes, the contract goes
/// from the bytes of the input to those of each client:
/// [`inputs_become_replies`](crate::laws::inputs_become_replies) says how.
///
/// [`served_guard`]: p9_commands::served_guard
pub fn serve_clients<A: Allocator + Copy, L: Listener, C: Timer, E: Write>(
    alloc: A,
    timer: &mut C,
    listener: L,
    rounds: u64,
    input: &[u8],
    err: &mut E,
) -> io::Result<Option<Guard<IndexTree<A>>>>
    ensures ok { IfOk result (GivesBackTo L.Stream.remaining L.Stream.contents (L.coming listener)
        (offer_of input.now) rounds (record {
          out_before = None;
          out = None;
          err_before = E.contents err.old;
          err = E.contents err.new;
          clock_before = C.readings timer.old;
          clock = C.readings timer.new;
        })) }
    ensures err { OnErr result (IsCutShort (offer_of input.now) (E.contents err.old)
        (E.contents err.new)) }
{
    clients_served::<L, IndexTree<A>, C, E>(alloc, timer, listener, rounds, input, err)
}

// Serves an input to the clients that come to a listener, as `serve_clients` does, with a tree of this
// type for each server.
fn clients_served<L: Listener, T: Tree, C: Timer, E: Write>(
    alloc: T::Alloc,
    timer: &mut C,
    listener: L,
    rounds: u64,
    input: &[u8],
    err: &mut E,
) -> io::Result<Option<Guard<T>>>
    ensures ok { IfOk result (GivesBackTo L.Stream.remaining L.Stream.contents (L.coming listener)
        (offer_of input.now) rounds (record {
          out_before = None;
          out = None;
          err_before = E.contents err.old;
          err = E.contents err.new;
          clock_before = C.readings timer.old;
          clock = C.readings timer.new;
        })) }
    ensures err { OnErr result (IsCutShort (offer_of input.now) (E.contents err.old)
        (E.contents err.new)) }
{
    match offered(alloc, input, err)? {
        Some(guard) => Ok(Some(serve_guard(alloc, timer, listener, rounds, guard)?)),
        None => Ok(None),
    }
}

// Where something is served, and for how many rounds.
#[derive(Clone, Copy)]
struct Stay {
    address: SocketAddr,
    rounds: u64,
}

// Serves an input at an address for a number of rounds, up to a failure, which is not reported here.
// Returns the guard as it is left, or nothing where there is nothing to serve.
fn served<R: Net + AllocGlobal, T: Tree<Alloc = Global>, C: Timer, W: Write, E: Write>(
    rt: &R,
    timer: &mut C,
    stay: Stay,
    input: &[u8],
    out: &mut W,
    err: &mut E,
) -> io::Result<Option<Guard<T>>>
    ensures ok { IfOk result (GivesBack (offer_of input.now) stay.rounds (record {
      out_before = W.contents out.old;
      out = W.contents out.new;
      err_before = E.contents err.old;
      err = E.contents err.new;
      clock_before = C.readings timer.old;
      clock = C.readings timer.new;
    })) }
    ensures err { OnErr result (BreaksOff (offer_of input.now) (record {
      out_before = W.contents out.old;
      out = W.contents out.new;
      err_before = E.contents err.old;
      err = E.contents err.new;
      clock_before = C.readings timer.old;
      clock = C.readings timer.new;
    })) }
{
    match offered(rt.alloc(), input, err)? {
        Some(guard) => Ok(Some(serve(rt, timer, stay, guard, out)?)),
        None => Ok(None),
    }
}

// The guard that an input offers, if it offers one. What is reported of the input is written.
fn offered<T: Tree, E: Write>(
    alloc: T::Alloc,
    input: &[u8],
    err: &mut E,
) -> io::Result<Option<Guard<T>>>
    ensures ok { IfOk result (IsOffer (offer_of input.now) (E.contents err.old)
        (E.contents err.new)) }
    ensures err { OnErr result (IsCutShort (offer_of input.now) (E.contents err.old)
        (E.contents err.new)) }
{
    let mut reported = Vec::new(alloc);
    let guard = match served_guard_over(input, &mut reported) {
        Ok(guard) => guard,
        Err(NoMemory) => return Err(io::Error::from(AllocError)),
    };
    write_text(err, reported.as_slice())?;
    Ok(guard)
}

// Serves a guard: makes the listener, prints its address, runs the rounds, and closes all sessions
// at the last reading of the clock. Returns the guard as it is left.
fn serve<R: Net + AllocGlobal, T: Tree<Alloc = Global>, C: Timer, W: Write>(
    rt: &R,
    timer: &mut C,
    stay: Stay,
    guard: Guard<T>,
    out: &mut W,
) -> io::Result<Guard<T>>
    ensures ok { OnOk result ((bound : _)
        × Appends (W.contents out.old) (W.contents out.new) (listening bound)) }
    ensures front { (bound : _)
        × AppendsFront (W.contents out.old) (W.contents out.new) (listening bound) }
    ensures served { IfOk result (WasServed {S = ClientSocket} untold untold guard stay.rounds
        (C.readings timer.old) (C.readings timer.new)) }
{
    let listener = Sockets::new(rt.alloc(), TcpListener::bind(rt, stay.address)?);
    print_address(rt, listener.local_addr()?, out)?;
    free_block(rt.alloc());
    serve_guard(rt.alloc(), timer, listener, stay.rounds, guard)
}

// Serves a guard to the clients that come to a listener: runs the rounds, and closes all sessions
// at the last reading of the clock. Returns the guard as it is left.
fn serve_guard<L: Listener, T: Tree, C: Timer>(
    alloc: T::Alloc,
    timer: &mut C,
    listener: L,
    rounds: u64,
    guard: Guard<T>,
) -> io::Result<Guard<T>>
    ensures { IfOk result (WasServedTo L.Stream.remaining L.Stream.contents (L.coming listener)
        guard rounds (C.readings timer.old) (C.readings timer.new)) }
{
    guard.well_formed();
    let mut server = Server::new(alloc, listener, guard);
    let last = run_rounds(timer, &mut server, rounds)?;
    Ok(server.finish(last))
}

// Allocates the largest block, and frees it. That there may be no memory for it changes nothing.
fn free_block(alloc: Global) {
    let _block: Result<Vec<u8>, _> = Vec::with_capacity(alloc, LARGEST_BLOCK);
}

// Prints the line with an address, and flushes.
fn print_address<R: AllocGlobal, W: Write>(
    rt: &R,
    address: SocketAddr,
    out: &mut W,
) -> io::Result<()>
    ensures ok { OnOk result
        (Appends (W.contents out.old) (W.contents out.new) (listening address)) }
    ensures front { AppendsFront (W.contents out.old) (W.contents out.new) (listening address) }
{
    let line = format!(in rt.alloc(); "listening {address}\n")?;
    write_text(out, line.as_bytes())?;
    out.flush()
}

// Runs the rounds, each at a reading of the clock, with the rests between them. Returns the last
// reading, or 0 where there is no round. A clock that fails ends the rounds.
fn run_rounds<L: Listener, T: Tree, C: Timer>(
    timer: &mut C,
    server: &mut Server<L, T>,
    rounds: u64,
) -> io::Result<u32>
    ensures ok { IfOk result (λ last. HadHostedRounds L.Stream.remaining L.Stream.contents rounds
        last (C.readings timer.old) (C.readings timer.new) server.old server.new) }
    ensures err { OnErr result (HadFewer L.Stream.remaining L.Stream.contents rounds
        (C.readings timer.old) (C.readings timer.new) server.old server.new) }
{
    let mut last = 0;
    for _ in 0..rounds {
        timer.rest(server.rest());
        last = timer.read()?;
        let _round = server.round(last);
    }
    Ok(last)
}
