//! The stream of the connection, watched: what went over it is reported while that takes long, and a
//! server that is silent is given up.

ghost use Rattle.std.specs.Io.{ReadsAtMost, WritesAtMost};

use p9_client::Stream;
use std::io;
use std::io::{Error, ErrorKind, Read, Write};
use std::net::TcpStream;
use std::time::{Duration, Instant};

// The seconds after which the bytes are reported first. From then on they are reported once a second.
const FIRST_REPORT: u64 = 2;

// How many milliseconds a read or a write of the system waits at once.
const WAIT: u64 = 500;

/// A stream over TCP whose bytes are counted. While it is in use for more than two seconds, how many
/// went each way is reported on standard error once a second, if that is asked for. A request that isn't
/// sent whole in so many seconds is an error, and so is a reply that isn't whole so many seconds after
/// the last request or the reply before it.
#[derive(Drop)]
pub struct Watched {
    stream: TcpStream,
    rt: HostRuntime,
    start: Instant,
    received: u64,
    sent: u64,
    // The seconds after which the bytes are reported next, where they are reported.
    next: Option<u64>,
    requests: Frames,
    replies: Frames,
    // When the last request was begun, or the last reply was whole.
    since: Instant,
    timeout: u64,
}

// The frames that go one way: the bytes of the size of the next one, as far as they went, and how many
// more bytes it has.
#[derive(Clone, Copy)]
struct Frames {
    head: u64,
    head_len: u64,
    left: u64,
}

impl Frames {
    // No byte went yet.
    fn new() -> Frames {
        Frames {
            head: 0,
            head_len: 0,
            left: 0,
        }
    }

    // Whether the next byte begins a frame.
    fn is_between(&self) -> bool {
        self.head_len == 0
    }

    // Passes on bytes, and returns whether a frame ended among them.
    fn pass(&mut self, bytes: &[u8]) -> bool {
        let mut ended = false;
        for byte in bytes {
            ended = self.pass_byte(*byte) || ended;
        }
        ended
    }

    // Passes on a byte, and returns whether a frame ended with it.
    fn pass_byte(&mut self, byte: u8) -> bool {
        if self.head_len < 4 {
            self.head = self.head / 256 + u64::from(byte) * 0x100_0000;
            self.head_len = self.head_len.saturating_add(1);
            self.left = self.head.saturating_sub(self.head_len);
        } else {
            self.left = self.left.saturating_sub(1);
        }
        let ended = self.head_len == 4 && self.left == 0;
        if ended {
            *self = Frames::new();
        }
        ended
    }
}

impl Watched {
    /// The stream, over which nothing went yet. A reply has so many seconds.
    pub fn new(
        rt: HostRuntime,
        stream: TcpStream,
        is_reported: bool,
        timeout: u64,
    ) -> io::Result<Watched> {
        let wait = Some(Duration::from_millis(WAIT));
        stream.set_read_timeout(wait)?;
        stream.set_write_timeout(wait)?;
        let start = Instant::now(&rt)?;
        Ok(Watched {
            stream,
            rt,
            start,
            received: 0,
            sent: 0,
            next: is_reported.then_some(FIRST_REPORT),
            requests: Frames::new(),
            replies: Frames::new(),
            since: start,
            timeout,
        })
    }

    // Reports what went over the stream, where it is time for that. Where this fails the stream does
    // not: the report is lost.
    fn report(&mut self) {
        let Some(next) = self.next else {
            return;
        };
        let Ok(gone) = self.start.elapsed(&self.rt) else {
            return;
        };
        let seconds = gone.as_secs();
        if seconds >= next {
            self.next = Some(seconds.saturating_add(1));
            let (rt, received, sent) = (self.rt, self.received, self.sent);
            let _ = eprintln!(&rt; "p9_fs: {received} bytes received, {sent} sent");
        }
    }

    // Begins the time that a reply has.
    fn restart(&mut self) -> io::Result<()> {
        self.since = Instant::now(&self.rt)?;
        Ok(())
    }

    // Reports, after the system waited. The error is that the reply has no more time.
    fn wait(&mut self) -> io::Result<()> {
        self.report();
        if self.since.elapsed(&self.rt)?.as_secs() >= self.timeout {
            return Err(Error::other("the server did not answer in time (--timeout)"));
        }
        Ok(())
    }

    // Reports, where an error says that the system waited. Any other error is returned.
    fn wait_after(&mut self, error: Error) -> io::Result<()> {
        if is_wait(&error) {
            return self.wait();
        }
        Err(error)
    }

    // Counts bytes that were received. A reply that ends among them begins the time of the next one.
    fn pass_received(&mut self, bytes: &[u8]) -> io::Result<()> {
        self.received = self.received.saturating_add(bytes.len() as u64);
        if self.replies.pass(bytes) {
            self.restart()?;
        }
        self.wait()
    }

    // Counts bytes that were sent.
    fn pass_sent(&mut self, bytes: &[u8]) -> io::Result<()> {
        self.sent = self.sent.saturating_add(bytes.len() as u64);
        let _ = self.requests.pass(bytes);
        self.wait()
    }
}

// Whether the system waited and nothing moved.
fn is_wait(error: &Error) -> bool {
    matches!(
        error.kind(),
        ErrorKind::WouldBlock | ErrorKind::TimedOut | ErrorKind::Interrupted
    )
}

impl Read for Watched {
    fn read(&mut self, bytes: &mut [u8]) -> io::Result<usize> {
        for _ in 0..u64::MAX {
            match self.stream.read(bytes) {
                Ok(count) => {
                    self.pass_received(&bytes[..count])?;
                    return Ok(count);
                }
                Err(error) => self.wait_after(error)?,
            }
        }
        Ok(0)
    }
}

impl Write for Watched {
    fn write(&mut self, bytes: &[u8]) -> io::Result<usize> {
        if self.requests.is_between() {
            self.restart()?;
        }
        for _ in 0..u64::MAX {
            match self.stream.write(bytes) {
                Ok(count) => {
                    self.pass_sent(&bytes[..count])?;
                    return Ok(count);
                }
                Err(error) => self.wait_after(error)?,
            }
        }
        Ok(0)
    }

    fn flush(&mut self) -> io::Result<()> {
        self.stream.flush()
    }
}

impl Stream for Watched {
    fn receive(&mut self, bytes: &mut [u8]) -> io::Result<usize> {
        self.read(bytes)
    }

    fn send(&mut self, bytes: &[u8], _more: bool) -> io::Result<usize> {
        self.write(bytes)
    }
}
