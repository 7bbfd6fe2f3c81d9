//! Frames and their replies.

use p9_export::{Export, is_frame};
use p9_testing::bytes_of;
use p9_tree::Tree;
use p9_wire::MSIZE_MAX;
use std::alloc::Global;
use std::process::Abort;

/// A request of a session and its reply, as hexadecimal digits from outside.
#[derive(Clone, Copy)]
pub struct Row<'a> {
    pub session: u32,
    pub request: &'a str,
    pub reply: &'a str,
}

/// The row of a line: the session, a blank, and the request with its reply.
pub fn row_of<'a>(rt: &impl Abort, line: &'a str) -> Row<'a> {
    let (session, rest) = line.split_once(' ').expect(rt, "a session");
    in_session(rt, session.parse::<u32>().expect(rt, "a number"), rest)
}

/// The row of a request, ` = ` and its reply, in a session.
pub fn in_session<'a>(rt: &impl Abort, session: u32, text: &'a str) -> Row<'a> {
    let (request, reply) = text.split_once(" = ").expect(rt, "a reply");
    Row {
        session,
        request,
        reply,
    }
}

/// Room for the longest reply. A test has one, which every reply is written over.
pub fn room(rt: &impl Abort, alloc: Global) -> Vec<u8, Global> {
    let room = vec![in alloc; 0u8; MSIZE_MAX as usize];
    room.expect(rt, "memory")
}

/// Sends a frame, and returns the reply, for whose longest one there is room.
pub fn send<'a, T: Tree>(
    rt: &impl Abort,
    export: &mut Export<T>,
    session: u32,
    now: u32,
    frame: &[u8],
    room: &'a mut [u8],
) -> &'a [u8] {
    assert!(rt; is_frame(frame));
    let longest = export.reply_max(session).expect(rt, "a session");
    assert!(rt; room.len() >= longest);
    let size = export.message(session, frame, now, room);
    room.get(..size).expect(rt, "a reply")
}

/// Sends a request, and compares the reply.
pub fn exchange<T: Tree>(
    rt: &impl Abort,
    alloc: Global,
    export: &mut Export<T>,
    now: u32,
    row: Row<'_>,
    reply: &mut [u8],
) {
    let frame = bytes_of(alloc, row.request).expect(rt, "hexadecimal digits");
    let answered = send(rt, export, row.session, now, frame.as_slice(), reply);
    is_reply(rt, alloc, answered, row.reply);
}

/// Sends the requests of lines, and compares the replies.
pub fn exchange_all<T: Tree>(
    rt: &impl Abort,
    alloc: Global,
    export: &mut Export<T>,
    now: u32,
    lines: &str,
    reply: &mut [u8],
) {
    for line in lines.lines() {
        exchange(rt, alloc, export, now, row_of(rt, line), reply);
    }
}

/// Compares a reply with hexadecimal digits.
pub fn is_reply(rt: &impl Abort, alloc: Global, reply: &[u8], wanted: &str) {
    let wanted = bytes_of(alloc, wanted).expect(rt, "hexadecimal digits");
    are_bytes(rt, reply, wanted.as_slice());
}

// The bytes that were found are the wanted ones.
fn are_bytes(rt: &impl Abort, found: &[u8], want: &[u8]) {
    assert!(rt; found == want, "{found:?}, not {want:?}");
}
