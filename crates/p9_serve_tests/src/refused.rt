//! Allocations that fail while a client is taken in.

use crate::conn::{Answer, Scripted, Tape};
use crate::scripts::SMALL;
use p9_guard::Guard;
use p9_serve::{Clients, Tally, served_guard};
use p9_testing::Refusing;
use p9_tree::Tree;
use std::alloc::{Allocator, Global};
use std::process::Abort;

// A stream that has ended.
fn ended<S: Tape>(rt: &impl Abort, alloc: Global) -> S {
    let mut stream = S::new(alloc, Vec::new(alloc), 1);
    assert!(rt; stream.then(Answer::Moves(0)).is_ok());
    stream
}

// A turn of each client closes so many connections, and moves nothing.
fn close<S: Tape, T: Tree>(rt: &impl Abort, clients: &mut Clients<S, T>, closed: u64) {
    assert!(rt; clients.turns(0) == Tally { moved: 0, closed });
}

// Takes a client in, again where an allocation failed: there are no clients then. The turn of the
// one that is taken in closes its connection.
fn take_in_again<S: Tape, T: Tree>(rt: &impl Abort, alloc: Global, clients: &mut Clients<S, T>) {
    if !clients.take_in(ended(rt, alloc)) {
        close(rt, clients, 0);
        assert!(rt; clients.take_in(ended(rt, alloc)));
    }
    close(rt, clients, 1);
}

// The same with a request for memory refused, over a guard. Returns whether one was.
fn take_in<S: Tape, T: Tree, B: Allocator>(
    rt: &impl Abort,
    alloc: Global,
    guard: Guard<T>,
    lent: T::Alloc,
    memory: &Refusing<B>,
    refused: u64,
) -> bool {
    let mut clients: Clients<S, T> = Clients::new(lent, guard);
    memory.refuse(refused);
    take_in_again(rt, alloc, &mut clients);
    drop(clients);
    memory.has_refused()
}

// The same over a new guard without sessions.
fn is_refused(rt: &impl Abort, alloc: Global, refused: u64) -> bool {
    let memory = Refusing::new(alloc);
    let mut reported = Vec::new(&memory);
    let guard = served_guard(SMALL.as_bytes(), &mut reported).expect(rt, "memory");
    let guard = guard.expect(rt, "a guard");
    take_in::<Scripted, _, Global>(rt, alloc, guard, &memory, &memory, refused)
}

// The place, the two buffers and the session are taken one after another.
#[test]
fn a_client_is_taken_in_after_each_refusal(rt: HostRuntime) {
    for refused in 1..5 {
        assert!(rt; is_refused(&rt, rt.alloc(), refused));
    }
}
