//! Requests with their replies, as hexadecimal digits from outside: a line has a request, `>`, and its
//! reply.

use p9_testing::bytes_of;
use std::alloc::Global;
use std::process::Abort;

/// The requests of rows, one after the other.
pub fn requests(rt: &impl Abort, alloc: Global, rows: &str) -> Vec<u8> {
    let mut all = Vec::new(alloc);
    for row in rows.lines() {
        add(rt, alloc, &mut all, parts_of(rt, row).0);
    }
    all
}

/// The replies of rows, one after the other.
pub fn replies(rt: &impl Abort, alloc: Global, rows: &str) -> Vec<u8> {
    let mut all = Vec::new(alloc);
    for row in rows.lines() {
        add(rt, alloc, &mut all, parts_of(rt, row).1);
    }
    all
}

// The request and the reply of a row.
fn parts_of<'a>(rt: &impl Abort, row: &'a str) -> (&'a str, &'a str) {
    row.split_once('>').expect(rt, "a request and its reply")
}

/// Adds the bytes of hexadecimal digits, which blanks may part.
pub fn add(rt: &impl Abort, alloc: Global, all: &mut Vec<u8>, digits: &str) {
    let more = bytes_of(alloc, digits).expect(rt, "hexadecimal digits");
    assert!(rt; all.extend_from_slice(more.as_slice()).is_ok());
}
