//! What no clause can say, since nothing is known of what a cell holds: which request is refused,
//! and how many there were.

use p9_testing::{Refusing, refuse_each};
use std::alloc::{AllocError, Allocator, Global};
use std::process::Abort;

// Makes a request.
fn ask<A: Allocator>(memory: A) -> Result<Vec<u64, A>, AllocError> {
    Vec::with_capacity(memory, 1)
}

#[test]
fn the_request_that_is_named_is_refused_once(rt: HostRuntime) {
    let memory = Refusing::new(rt.alloc());
    for (n, refused) in [(1, 1), (2, 2), (5, 5), (300, 300), (0, 302), (302, 302)] {
        memory.refuse(n);
        refuses_one(&rt, &memory, refused);
    }
    assert!(rt; memory.requests() == 6 * 301);
}

// Makes 301 requests, of which the memory refuses one alone, or none where it is a later one.
fn refuses_one(rt: &impl Abort, memory: &Refusing<Global>, refused: u64) {
    for request in 1..302 {
        let is_refused = ask(memory).is_err();
        assert!(rt; is_refused == (request == refused), "{request}");
    }
    assert!(rt; memory.has_refused() == (refused < 302), "{refused}");
}

// Makes three requests, of which one is refused, or none where none is named.
fn ask_thrice(rt: &impl Abort, memory: &Refusing<Global>) {
    let mut was_refused = false;
    for _ in 0..3 {
        let is_refused = ask(memory).is_err();
        assert!(rt; !(is_refused && was_refused));
        was_refused |= is_refused;
    }
    assert!(rt; was_refused == memory.has_refused());
}

#[test]
fn each_request_is_refused_in_turn(rt: HostRuntime) {
    let memory = Refusing::new(rt.alloc());
    let refusals = refuse_each(&memory, || (), |()| ask_thrice(&rt, &memory));
    assert!(rt; refusals == 3 && memory.requests() == 12);
}
