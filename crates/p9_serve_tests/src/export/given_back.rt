//! What the end of a fid, a file, a session and an exporter gives back: over a heap that counts the
//! bytes that are lent.

use crate::export::exchange::{room, send};
use crate::export::exporters::{begin, close, exporter};
use crate::samples::SMALL;
use linked_list_allocator::LocalHeap;
use p9_export::Export;
use p9_index::IndexTree;
use p9_testing::bytes_of;
use p9_tree::{PlainTree, Tree};
use std::alloc::Global;
use std::process::Abort;

// Requests that take memory, and requests that give it back. Session 1 is then as before.
#[derive(Clone, Copy)]
struct Work<'a> {
    takes: &'a str,
    gives: &'a str,
}

// Fid 1 is opened at /a/f, and ends by a clunk.
const CLUNK: Work<'static> = Work {
    takes: "\
        17000000 6e 0200 00000000 01000000 0200 0100 61 0100 66\n\
        0c000000 70 0300 01000000 02",
    gives: "0b000000 78 0500 01000000",
};

// A file is made in /a, gets 9,001 bytes, and is removed.
const REMOVE: Work<'static> = Work {
    takes: "\
        14000000 6e 0100 00000000 01000000 0100 0100 61\n\
        13000000 72 0100 01000000 0100 6e a4010000 02\n\
        18000000 76 0100 01000000 2823000000000000 01000000 21",
    gives: "0b000000 7a 0300 01000000",
};

// Fid 1 is at /a, and a version ends it and fid 0, which glenda attaches again.
const VERSION: Work<'static> = Work {
    takes: "14000000 6e 0100 00000000 01000000 0100 0100 61",
    gives: "\
        13000000 64 ffff 00200000 0600 395032303030\n\
        19000000 68 0100 00000000 ffffffff 0600 676c656e6461 0000",
};

// Sends a request of session 1, which succeeds.
fn succeeds<T: Tree>(
    rt: &impl Abort,
    alloc: Global,
    export: &mut Export<T>,
    request: &str,
    reply: &mut [u8],
) {
    let frame = bytes_of(alloc, request).expect(rt, "hexadecimal digits");
    let answered = send(rt, export, 1, 0, frame.as_slice(), reply);
    assert!(rt; is_answer(frame.as_slice(), answered), "{request}");
}

// Sends requests of session 1, which succeed.
fn succeed<T: Tree>(
    rt: &impl Abort,
    alloc: Global,
    export: &mut Export<T>,
    requests: &str,
    reply: &mut [u8],
) {
    for request in requests.lines() {
        succeeds(rt, alloc, export, request, reply);
    }
}

// Whether a reply is of the type of the request, and no error.
fn is_answer(request: &[u8], reply: &[u8]) -> bool {
    match (request.get(4), reply.get(4)) {
        (Some(asked), Some(answered)) => asked.checked_add(1) == Some(*answered),
        _ => false,
    }
}

// Does the work, after which as much is lent as before it, and more in between. At the first time
// a collection may keep room.
fn repeat<T: Tree>(
    rt: &impl Abort,
    alloc: Global,
    heap: &LocalHeap,
    export: &mut Export<T>,
    work: Work<'_>,
    reply: &mut [u8],
) {
    succeed(rt, alloc, export, work.takes, reply);
    succeed(rt, alloc, export, work.gives, reply);
    let used = heap.used();
    for _ in 0..50 {
        succeed(rt, alloc, export, work.takes, reply);
        is_more_lent(rt, heap, used);
        succeed(rt, alloc, export, work.gives, reply);
        is_as_much_lent(rt, heap, used);
    }
}

// More is lent than before.
fn is_more_lent(rt: &impl Abort, heap: &LocalHeap, before: usize) {
    assert!(rt; heap.used() > before);
}

// As much is lent as before.
fn is_as_much_lent(rt: &impl Abort, heap: &LocalHeap, before: usize) {
    assert!(rt; heap.used() == before);
}

// The same of session 2: it begins, and is closed.
fn begin_and_close<T: Tree>(
    rt: &impl Abort,
    alloc: Global,
    heap: &LocalHeap,
    export: &mut Export<T>,
    reply: &mut [u8],
) {
    begin(rt, alloc, export, 2, reply);
    close(rt, export, 2);
    let used = heap.used();
    for _ in 0..50 {
        begin(rt, alloc, export, 2, reply);
        is_more_lent(rt, heap, used);
        close(rt, export, 2);
        is_as_much_lent(rt, heap, used);
    }
}

// Does all of this.
fn work_all<T: Tree>(
    rt: &impl Abort,
    alloc: Global,
    heap: &LocalHeap,
    export: &mut Export<T>,
    reply: &mut [u8],
) {
    begin(rt, alloc, export, 1, reply);
    repeat(rt, alloc, heap, export, CLUNK, reply);
    repeat(rt, alloc, heap, export, REMOVE, reply);
    repeat(rt, alloc, heap, export, VERSION, reply);
    begin_and_close(rt, alloc, heap, export, reply);
}

// Does all of this with an exporter, which is then dropped: nothing is lent.
fn serve<T: Tree>(rt: &impl Abort, alloc: Global, heap: &LocalHeap, lent: T::Alloc) {
    let mut room = room(rt, alloc);
    let mut export = exporter::<T>(rt, lent, SMALL, &[]);
    work_all(rt, alloc, heap, &mut export, room.as_mut_slice());
    drop(export);
    is_as_much_lent(rt, heap, 0);
}

// Does so over each kind of tree.
fn serve_both(rt: &impl Abort, alloc: Global, heap: &LocalHeap) {
    serve::<PlainTree<&LocalHeap>>(rt, alloc, heap, heap);
    serve::<IndexTree<&LocalHeap>>(rt, alloc, heap, heap);
}

#[test]
fn what_was_taken_is_given_back(rt: HostRuntime) {
    let heap = LocalHeap::new(rt.alloc(), 1 << 20).expect(&rt, "memory");
    serve_both(&rt, rt.alloc(), &heap);
    drop(heap);
}
