//! An input that is served at an address: what serving asks of the clock, and a client of it. The
//! client is the server's output, and connects when the address is printed.

use crate::machine::Machine;
use crate::rows::{replies, requests};
use p9_base::number;
use p9_serve::run_serve;
use std::alloc::Global;
use std::io::{ErrorKind, Read, Write};
use std::net::{Ipv4Addr, Net, SocketAddr, TcpStream};
use std::process::Abort;
use std::rt::Clock;
use std::time::Duration;
use std::{io, thread};

// A hidden directory, and its certificate.
const VAULT: &str = "\
%% world
server main
dir / 755 sys sys
dir /pub 777 sys sys
dir /vault 000 sys sys
file /vault/key 600 sys sys 01
user glenda
hide main /vault
%% cert
cert 1
dir 0 0
dir 0 1
";

// A number of rounds, and how often the clock can be read; and what that comes to: the exit
// status, how often the clock was read, how often the server rested, and how many microseconds in
// all.
//
// The clock is read once a round, and one that fails ends the serving. There is a rest before each
// round after 5,000 quiet ones: 50, 100, 200, 400, 800, 1,600, 3,200, and then 4,000 microseconds
// each time.
const ROUNDS: &str = "\
1 1000 = 0 1 0 0
2 1000 = 0 2 0 0
1000 1000 = 0 1000 0 0
1000 7 = 4 7 0 0
5000 5000 = 0 5000 0 0
5001 5001 = 0 5001 1 50
5007 5007 = 0 5007 7 6350
5010 5010 = 0 5010 10 18350
6000 6000 = 0 6000 1000 3978350";

// The address in the line that is printed of it.
fn address_in(line: &[u8]) -> Option<SocketAddr> {
    let line = str::from_utf8(line).ok()?;
    let address = line.strip_prefix("listening ")?.strip_suffix("\n")?;
    address.parse::<SocketAddr>().ok()
}

// A world of glenda's directory, which is 1, and a file of rob's, and a certificate that is closed
// over it.
const HOME: &str = "\
%% world
server main
dir / 755 sys sys
dir /home 700 glenda glenda
file /f 600 rob rob -
user glenda
user rob
%% cert
cert 1
dir 0 0
dir 0 1
";

// Glenda makes a file `n` in her directory as fid 2, writes five bytes and reads them, and asks for
// its stat after each. It is made at the time 2^32 - 1, written four seconds later, and read four
// seconds after that. The ten requests are read in the first round. Then each is answered in a round, and
// its reply is written in the next.
const TIMED: &str = "\
13000000 64 ffff 00200000 0600 395032303030 > 13000000 65 ffff 00200000 0600 395032303030
19000000 68 0100 00000000 ffffffff 0600 676c656e6461 0000 > \
    14000000 69 0100 80 00000000 0000000000000000
17000000 6e 0200 00000000 01000000 0100 0400 686f6d65 > \
    16000000 6f 0200 0100 80 00000000 0100000000000000
11000000 6e 0300 01000000 02000000 0000 > 09000000 6f 0300 0000
13000000 72 0400 02000000 0100 6e a4010000 02 > \
    18000000 73 0400 00 00000000 0300000000000000 e81f0000
0b000000 7c 0500 02000000 > \
    4d000000 7d 0500 4400 4200 0000 00000000 00 00000000 0300000000000000 80010000 \
    ffffffff ffffffff 0000000000000000 0100 6e 0600 676c656e6461 0600 676c656e6461 \
    0600 676c656e6461
1c000000 76 0600 02000000 0000000000000000 05000000 68656c6c6f > 0b000000 77 0600 05000000
0b000000 7c 0700 02000000 > \
    4d000000 7d 0700 4400 4200 0000 00000000 00 01000000 0300000000000000 80010000 \
    03000000 03000000 0500000000000000 0100 6e 0600 676c656e6461 0600 676c656e6461 \
    0600 676c656e6461
17000000 74 0800 02000000 0000000000000000 0a000000 > 10000000 75 0800 05000000 68656c6c6f
0b000000 7c 0900 02000000 > \
    4d000000 7d 0900 4400 4200 0000 00000000 00 01000000 0300000000000000 80010000 \
    07000000 03000000 0500000000000000 0100 6e 0600 676c656e6461 0600 676c656e6461 \
    0600 676c656e6461
";

// The clock at the first round: the file of the rows is made ten rounds on, at 2^32 - 1.
const FIRST_SECOND: u64 = 0xFFFF_FFF6;

// More milliseconds than the system takes to hand a connection and its bytes to the server.
const HANDING_ON: u64 = 200;

// An input that is served for so many rounds at a clock that shows `first` seconds at first and can be
// read so often; and what a client asks, if there is one.
#[derive(Clone, Copy)]
struct Serving<'a> {
    input: &'a str,
    rounds: u64,
    first: u64,
    readings: u64,
    requests: &'a [u8],
}

// The output of a server, and a client of it. When it is flushed, a client that has requests connects to
// the address that was written, and sends all of them.
#[derive(Drop)]
struct Client<'a, R> {
    host: &'a R,
    requests: &'a [u8],
    printed: Vec<u8, Global>,
    stream: Option<TcpStream>,
}

impl<R: Clock + Net<Stream = TcpStream>> Write for Client<'_, R> {
    fn write(&mut self, buf: &[u8]) -> io::Result<usize> {
        self.printed.write(buf)
    }

    fn flush(&mut self) -> io::Result<()> {
        let Some(address) = address_in(self.printed.as_slice()) else {
            return Err(io::Error::from(ErrorKind::InvalidData));
        };
        if self.requests.is_empty() {
            return Ok(());
        }
        let mut stream = TcpStream::connect(self.host, address)?;
        stream.write_all(self.requests)?;
        thread::sleep(self.host, Duration::from_millis(HANDING_ON));
        self.stream = Some(stream);
        Ok(())
    }
}

// Serves at a port that the system chooses. Returns the exit status.
fn serve<R: AllocGlobal + Net, W: Write>(
    machine: &Machine<'_, R>,
    serving: &Serving<'_>,
    out: &mut W,
) -> u8 {
    let mut err = Vec::new(machine.alloc());
    let address = SocketAddr::from((Ipv4Addr::LOCALHOST, 0));
    let input = serving.input.as_bytes();
    run_serve(machine, address, serving.rounds, input, out, &mut err)
}

// What a serving came to: its status, and what it asked of the clock.
fn told<R: AllocGlobal>(rt: &impl Abort, machine: &Machine<'_, R>, status: u8) -> String {
    let told = format!(in machine.alloc();
        "{status} {} {} {}",
        machine.readings.get(),
        machine.sleeps.get(),
        machine.slept.get().as_micros()
    );
    told.expect(rt, "memory")
}

// All that a client got before the server ended the connection, if there was a client.
fn got<R: Read + Drop>(rt: &impl Abort, alloc: Global, stream: Option<R>) -> Vec<u8> {
    let mut got = Vec::new(alloc);
    if let Some(mut stream) = stream {
        assert!(rt; stream.read_to_end(&mut got).is_ok());
    }
    got
}

// Serves. It comes to this, and the client gets these replies. The one line that is printed has the
// address.
fn is_served<R: Abort + AllocGlobal + Clock + Net<Stream = TcpStream>>(
    rt: &R,
    serving: &Serving<'_>,
    wanted: &str,
    replies: &[u8],
) {
    let machine = Machine::new(rt, serving.first, serving.readings);
    let mut client = Client {
        host: rt,
        requests: serving.requests,
        printed: Vec::new(rt.alloc()),
        stream: None,
    };
    let status = serve(&machine, serving, &mut client);
    let came = told(rt, &machine, status);
    assert!(rt; came.as_str() == wanted);
    let got = got(rt, rt.alloc(), client.stream);
    assert!(rt; got.as_slice() == replies);
}

// The numbers of a text of two.
fn two_numbers(rt: &impl Abort, text: &str) -> (u64, u64) {
    let (first, second) = text.split_once(' ').expect(rt, "two numbers");
    let first = number(first, u64::MAX).expect(rt, "a number");
    (first, number(second, u64::MAX).expect(rt, "a number"))
}

// Serves the vault, without a client, as a row says.
fn is_row<R: Abort + AllocGlobal + Clock + Net<Stream = TcpStream>>(rt: &R, row: &str) {
    let (asked, wanted) = row.split_once(" = ").expect(rt, "a row");
    let (rounds, readings) = two_numbers(rt, asked);
    let serving = Serving {
        input: VAULT,
        rounds,
        first: 0,
        readings,
        requests: b"",
    };
    is_served(rt, &serving, wanted, b"");
}

// Each request is answered at the clock's reading in its round, modulo 2^32. Behind the last round
// the connection is ended.
fn are_timed<R: Abort + AllocGlobal + Clock + Net<Stream = TcpStream>>(rt: &R) {
    let asked = requests(rt, rt.alloc(), TIMED);
    let answered = replies(rt, rt.alloc(), TIMED);
    let serving = Serving {
        input: HOME,
        rounds: 21,
        first: FIRST_SECOND,
        readings: 21,
        requests: asked.as_slice(),
    };
    is_served(rt, &serving, "0 21 0 0", answered.as_slice());
}

// Serves as all rows say, and with a client.
fn are_served<R: Abort + AllocGlobal + Clock + Net<Stream = TcpStream>>(rt: &R) {
    for row in ROUNDS.lines() {
        is_row(rt, row);
    }
    are_timed(rt);
}

#[test]
fn each_round_has_its_time(rt: HostRuntime) {
    are_served(&rt);
}
