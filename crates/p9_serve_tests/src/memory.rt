//! Clients in memory: all that a contract may be told is told of them, who will come, what they send,
//! and what they got. They are served by the function that takes any listener.

ghost use Rattle.std.specs.Prelude.{◌≡◌, Some};
ghost use Rattle.std.specs.Io.{ReadsAtMost, WritesAtMost};
ghost use Rattle.std.specs.Io.KnownBytes.{ReadConsumes, WriteAppends};

use crate::copied::Copied;
use crate::rows::{add, replies, requests};
use crate::scripts::SMALL;
use p9_serve::{Listener, Stream, Timer, serve_clients};
use std::alloc::Global;
use std::collections::VecDeque;
use std::io;
use std::io::{Cursor, ErrorKind, Read, Write};
use std::process::Abort;
use std::time::Duration;

// More rounds than the clients take.
const ROUNDS: u64 = 200;

// A client: its requests with their replies, and bytes behind them; whether it stays then; and how many
// of its kind come, one behind the other.
#[derive(Clone, Copy)]
struct Guest {
    rows: &'static str,
    rest: &'static str,
    stays: bool,
    times: u32,
}

// They come in this order, one in a round. One says nothing, one goes within a frame, and many go at
// once. Then one has a file open when the other removes it: what the first one asks then comes a round
// after the removal.
const GUESTS: [Guest; 5] = [
    Guest {
        rows: "",
        rest: "",
        stays: true,
        times: 1,
    },
    Guest {
        rows: SHORT,
        rest: "19000000 68",
        stays: false,
        times: 1,
    },
    Guest {
        rows: SHORT,
        rest: "",
        stays: false,
        times: 100,
    },
    Guest {
        rows: FIRST,
        rest: "",
        stays: true,
        times: 1,
    },
    Guest {
        rows: SECOND,
        rest: "",
        stays: true,
        times: 1,
    },
];

const SHORT: &str = "\
13000000 64 ffff 00200000 0600 395032303030 > 13000000 65 ffff 00200000 0600 395032303030
";

const FIRST: &str = "\
13000000 64 ffff 00200000 0600 395032303030 > 13000000 65 ffff 00200000 0600 395032303030
19000000 68 0100 00000000 ffffffff 0600 676c656e6461 0000 > \
    14000000 69 0100 80 00000000 0000000000000000
17000000 6e 0200 00000000 01000000 0200 0100 61 0100 66 > \
    23000000 6f 0200 0200 80 00000000 0100000000000000 00 00000000 0300000000000000
0c000000 70 0300 01000000 00 > 18000000 71 0300 00 00000000 0300000000000000 e81f0000
17000000 74 0400 01000000 0000000000000000 0a000000 > \
    14000000 6b 0400 0b00 7068617365206572726f72
0b000000 78 0500 01000000 > 07000000 79 0500
17000000 6e 0600 00000000 01000000 0200 0100 61 0100 66 > \
    16000000 6f 0600 0100 80 01000000 0100000000000000
";

const SECOND: &str = "\
13000000 64 ffff 00200000 0600 395032303030 > 13000000 65 ffff 00200000 0600 395032303030
19000000 68 0100 00000000 ffffffff 0600 676c656e6461 0000 > \
    14000000 69 0100 80 00000000 0000000000000000
17000000 6e 0200 00000000 01000000 0200 0100 61 0100 66 > \
    23000000 6f 0200 0200 80 00000000 0100000000000000 00 00000000 0300000000000000
0b000000 7a 0300 01000000 > 07000000 7b 0300
";

// A client's stream. It gives the client's requests, and then would block or ends.
#[derive(Drop)]
struct Memory<'a> {
    input: Cursor<Vec<u8, Global>>,
    stays: bool,
    output: Vec<u8, Global>,
    copied: &'a Copied,
}

impl Read for Memory<'_> {
    ghost remaining = { λ m. ⟦<Cursor<Vec<u8, Global>> as Read>⟧.remaining m.input };

    fn read(&mut self, buf: &mut [u8]) -> io::Result<usize>
        ensures bound { ReadsAtMost result buf.new }
        ensures bytes { ReadConsumes (⟦<Cursor<Vec<u8, Global>> as Read>⟧.remaining self.old.input)
            (⟦<Cursor<Vec<u8, Global>> as Read>⟧.remaining self.new.input) result buf.new }
        ensures kept { self.new.output ≡ self.old.output }
    {
        if self.stays && self.input.position() >= self.input.get_ref().len() as u64 {
            return Err(io::Error::from(ErrorKind::WouldBlock));
        }
        self.input.read(buf)
    }
}

impl Write for Memory<'_> {
    ghost contents = { λ m. ⟦<Vec<u8, Global> as Write>⟧.contents m.output };

    fn write(&mut self, buf: &[u8]) -> io::Result<usize>
        ensures bound { WritesAtMost result buf.now }
        ensures bytes { WriteAppends (⟦<Vec<u8, Global> as Write>⟧.contents self.old.output)
            (⟦<Vec<u8, Global> as Write>⟧.contents self.new.output) result buf.now }
        ensures kept { self.new.input ≡ self.old.input }
    {
        self.copied.take(buf)?;
        self.output.write(buf)
    }

    fn flush(&mut self) -> io::Result<()> {
        Ok(())
    }
}

impl Stream for Memory<'_> {
    fn receive(&mut self, bytes: &mut [u8]) -> io::Result<usize> {
        self.read(bytes)
    }

    fn send(&mut self, bytes: &[u8], _more: bool) -> io::Result<usize> {
        self.write(bytes)
    }
}

// Clients who wait, one behind the other.
#[derive(Drop)]
struct Waiting<'a> {
    clients: VecDeque<Memory<'a>, Global>,
}

impl<'a> Listener for Waiting<'a> {
    type Stream = Memory<'a>;

    ghost coming = { λ w. Some w.clients.items };

    fn accept(&mut self) -> Option<Memory<'a>> {
        self.clients.pop_front()
    }
}

// A clock that keeps the readings that it gives: each is a second later than the one before.
#[derive(Drop)]
struct Seconds {
    given: Vec<u32, Global>,
}

impl Timer for Seconds {
    ghost readings = { λ s. Some s.given.items };

    fn read(&mut self) -> io::Result<u32> {
        let second = u32::try_from(self.given.len()).unwrap_or(u32::MAX);
        self.given.push(second)?;
        Ok(second)
    }

    fn rest(&mut self, _length: Duration) {}
}

// The stream of a client.
fn stream_of<'a>(rt: &impl Abort, alloc: Global, guest: &Guest, copied: &'a Copied) -> Memory<'a> {
    let mut input = requests(rt, alloc, guest.rows);
    add(rt, alloc, &mut input, guest.rest);
    Memory {
        input: Cursor::new(input),
        stays: guest.stays,
        output: Vec::new(alloc),
        copied,
    }
}

// All clients wait, and what each kind gets is copied.
fn queue<'a>(rt: &impl Abort, alloc: Global, copies: &'a [Copied]) -> Waiting<'a> {
    let mut clients = VecDeque::new(alloc);
    for (guest, copied) in GUESTS.iter().zip(copies) {
        for _ in 0..guest.times {
            let stream = stream_of(rt, alloc, guest, copied);
            assert!(rt; clients.push_back(stream).is_ok());
        }
    }
    Waiting { clients }
}

// Serves those who come, and returns whether a guard is left, where nothing was reported.
fn serve<L: Listener>(rt: &impl Abort, alloc: Global, listener: L) -> bool {
    let mut clock = Seconds {
        given: Vec::new(alloc),
    };
    let mut err = Vec::new(alloc);
    let served = serve_clients(
        alloc,
        &mut clock,
        listener,
        ROUNDS,
        SMALL.as_bytes(),
        &mut err,
    );
    assert!(rt; clock.given.len() as u64 == ROUNDS && err.is_empty());
    matches!(served, Ok(Some(_)))
}

// A copy for each kind of client.
fn copies(rt: &impl Abort, alloc: Global) -> Vec<Copied> {
    let mut copies = Vec::new(alloc);
    for _ in &GUESTS {
        assert!(rt; copies.push(Copied::new(alloc)).is_ok());
    }
    copies
}

// All clients of a kind got the replies.
fn has_replies(rt: &impl Abort, alloc: Global, guest: &Guest, copied: &Copied) {
    let mut wanted = Vec::new(alloc);
    for _ in 0..guest.times {
        let more = replies(rt, alloc, guest.rows);
        assert!(rt; wanted.extend_from_slice(more.as_slice()).is_ok());
    }
    assert!(rt; copied.has(wanted.as_slice()));
}

// All clients are served.
fn are_served(rt: &impl Abort, alloc: Global) {
    let copies = copies(rt, alloc);
    assert!(rt; serve(rt, alloc, queue(rt, alloc, copies.as_slice())));
    for (guest, copied) in GUESTS.iter().zip(copies.as_slice()) {
        has_replies(rt, alloc, guest, copied);
    }
    drop(copies);
}

#[test]
fn each_client_in_memory_gets_its_replies(rt: HostRuntime) {
    are_served(&rt, rt.alloc());
}
