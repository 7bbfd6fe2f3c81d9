//! What a client's socket keeps, and when it is sent.

use crate::copied::Copied;
use p9_conn::Stream;
use p9_serve::Socket;
use std::cell::Cell;
use std::io::{self, ErrorKind, Read, Write};
use std::process::Abort;

// A stream that has nothing to read. What it takes is copied, and it takes so many bytes before it would
// block.
#[derive(Clone, Copy)]
struct Late<'a> {
    copied: &'a Copied,
    room: &'a Cell<usize>,
}

impl Read for Late<'_> {
    fn read(&mut self, _bytes: &mut [u8]) -> io::Result<usize> {
        Err(io::Error::from(ErrorKind::WouldBlock))
    }
}

impl Write for Late<'_> {
    fn write(&mut self, bytes: &[u8]) -> io::Result<usize> {
        let room = self.room.get();
        let count = room.min(bytes.len());
        if count == 0 {
            return Err(io::Error::from(ErrorKind::WouldBlock));
        }
        self.room.set(room - count);
        self.copied.take(&bytes[..count])?;
        Ok(count)
    }

    fn flush(&mut self) -> io::Result<()> {
        Ok(())
    }
}

// Replies that are sent: whether more will follow, how many bytes of the socket's stream are free
// before each call, and how long the reply is. Of a batch, some are longer than what a socket
// keeps.
const REPLIES: [(bool, usize, usize); 9] = [
    (true, 0, 9),
    (false, 0, 9),
    (true, 10_000, 20),
    (true, 10_000, 100_000),
    (true, 10_000, 7),
    (true, 10_000, 65_536),
    (true, 10_000, 65_535),
    (true, 10_000, 100_000),
    (false, 10_000, 30),
];

// Sends bytes whole, in as many calls as that takes. The stream takes so many bytes more for each.
fn send_whole<W: Stream>(
    socket: &mut W,
    room: &Cell<usize>,
    bytes: &[u8],
    more: bool,
    free: usize,
) {
    let mut rest = bytes;
    for _ in 0..1_000 {
        room.set(free);
        if let Ok(count) = socket.send(rest, more) {
            rest = rest.get(count..).unwrap_or(&[]);
        }
        if rest.is_empty() {
            break;
        }
    }
}

// Sends all replies, of which each has the bytes of its place, and adds them to those that are
// wanted.
fn send_all<W: Stream>(rt: &impl Abort, socket: &mut W, room: &Cell<usize>, wanted: &mut Vec<u8>) {
    let mut place = 0u8;
    for (more, free, len) in &REPLIES {
        let begun = wanted.len();
        place = place.saturating_add(1);
        assert!(rt; wanted.resize(begun.saturating_add(*len), place).is_ok());
        let reply = wanted.get(begun..).unwrap_or(&[]);
        send_whole(socket, room, reply, *more, *free);
    }
}

// Two replies wait until the client reads: they are sent before those that come later, and what is
// kept at the end before anything is read from the client.
#[test]
fn replies_are_sent_in_their_order(rt: HostRuntime) {
    let copied = Copied::new(rt.alloc());
    let room = Cell::new(0);
    let late = Late {
        copied: &copied,
        room: &room,
    };
    let mut wanted = Vec::new(rt.alloc());
    let mut socket = Socket::new(rt.alloc(), late).expect(&rt, "memory");
    send_all(&rt, &mut socket, &room, &mut wanted);
    room.set(usize::MAX);
    assert!(rt; socket.receive(&mut [0; 8]).is_err());
    assert!(rt; copied.has(wanted.as_slice()));
}
