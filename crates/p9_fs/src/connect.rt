//! The connection to a server.

ghost use Rattle.std.specs.Prelude.{◌≤◌, IfOk};

use crate::failure::{Failure, report, report_about, report_text};
use crate::watched::Watched;
use clap::ArgMatches;
use p9_client::{ClientError, FileError, MSIZE_MIN, Session, Stream};
use p9_wire::MSIZE_MAX;
use std::alloc::{AllocError, Global};
use std::io::ErrorKind;
use std::net::{TcpStream, ToSocketAddrs};
use std::time::{Duration, Instant};
use std::{env, io};

/// A session of the program over a stream.
pub type Client<S> = Session<S, Global>;

/// The fid of the root.
pub const ROOT: u32 = 0;

// The msize that is offered where none is given.
const MSIZE: usize = 65_536;

// The seconds that a reply has where none are given, and the most of them.
const TIMEOUT: usize = 30;

const TIMEOUT_MAX: usize = 86_400;

/// Connects to the server that the words name, begins a session, and attaches its root. What takes
/// long is reported, if that is asked for.
pub fn connect(
    rt: &HostRuntime,
    words: &ArgMatches<'_>,
    is_reported: bool,
) -> Result<Client<Watched>, Failure> {
    let address = words.get_str("addr").unwrap_or("");
    let msize = msize_of(rt, words)?;
    let timeout = timeout_of(rt, words)?;
    let stream = match connected(rt, address, is_reported, timeout) {
        Ok(stream) => stream,
        Err(error) => return Err(not_connected(rt, address, &error)),
    };
    let mut client = Session::new(rt.alloc(), stream, msize)?;
    begin(rt, &mut client, words, address)?;
    Ok(client)
}

// The msize that is offered.
fn msize_of(rt: &HostRuntime, words: &ArgMatches<'_>) -> Result<usize, Failure>
    ensures enough { IfOk result (λ msize. 256 ≤ msize) }
    ensures within { IfOk result (λ msize. msize ≤ 1048576) }
{
    let msize = words.get_one::<usize>("msize").unwrap_or(MSIZE);
    if msize < MSIZE_MIN || msize > MSIZE_MAX as usize {
        return Err(report_text(rt, "an msize is from 256 to 1048576", Failure::BadWords));
    }
    Ok(msize)
}

// The seconds that a reply has.
fn timeout_of(rt: &HostRuntime, words: &ArgMatches<'_>) -> Result<u64, Failure> {
    let seconds = words.get_one::<usize>("timeout").unwrap_or(TIMEOUT);
    if seconds == 0 || seconds > TIMEOUT_MAX {
        return Err(report_text(
            rt,
            "a timeout is from 1 to 86400 seconds",
            Failure::BadWords,
        ));
    }
    Ok(seconds as u64)
}

// Reports why there is no connection to the server of an address.
fn not_connected(rt: &HostRuntime, address: &str, error: &io::Error) -> Failure {
    let failure = if error.kind() == ErrorKind::OutOfMemory {
        Failure::NoMemory
    } else {
        Failure::Failed
    };
    report_about(rt, address, error, failure)
}

// Begins a session with the server of an address, and attaches its root.
fn begin<S: Stream + Drop>(
    rt: &HostRuntime,
    client: &mut Client<S>,
    words: &ArgMatches<'_>,
    address: &str,
) -> Result<(), Failure> {
    if let Err(error) = client.version() {
        return Err(refused(rt, address, error));
    }
    let user = user_of(rt, words)?;
    let aname = words.get_str("aname").unwrap_or("");
    match client.attach(ROOT, user.as_str(), aname) {
        Ok(_) => Ok(()),
        Err(error) => {
            let what = format!(in rt.alloc(); "{address}: attach as {user}")?;
            Err(refused(rt, what.as_str(), error))
        }
    }
}

// Connects to the server of an address within so many seconds.
fn connected(
    rt: &HostRuntime,
    address: &str,
    is_reported: bool,
    timeout: u64,
) -> io::Result<Watched> {
    let stream = stream_to(rt, address, timeout)?;
    let _ = stream.set_nodelay(true);
    Watched::new(*rt, stream, is_reported, timeout)
}

// A stream to the first of the addresses that answers. All of them together have so many seconds.
fn stream_to(rt: &HostRuntime, address: &str, timeout: u64) -> io::Result<TcpStream> {
    let start = Instant::now(rt)?;
    let addresses = address.to_socket_addrs(rt)?;
    let mut last = io::Error::from(ErrorKind::InvalidInput);
    for found in addresses {
        let left = left_since(rt, start, timeout)?;
        if left.is_zero() {
            break;
        }
        match TcpStream::connect_timeout(rt, &found, left) {
            Ok(stream) => return Ok(stream),
            Err(error) => last = error,
        }
    }
    Err(last)
}

// How long is left of so many seconds since an instant.
fn left_since(rt: &HostRuntime, start: Instant, timeout: u64) -> io::Result<Duration> {
    Ok(Duration::from_secs(timeout).saturating_sub(start.elapsed(rt)?))
}

// Reports why the server of an address has no session for the user.
fn refused(rt: &HostRuntime, address: &str, error: ClientError) -> Failure {
    report(rt, address, &FileError::Session(error))
}

// The user that the words name, or else the one of the environment, or `none`.
fn user_of(rt: &HostRuntime, words: &ArgMatches<'_>) -> Result<String, AllocError> {
    if let Some(user) = words.get_str("user") {
        return String::from_str(rt.alloc(), user);
    }
    match env::var(rt, "USER") {
        Ok(user) if !user.is_empty() => Ok(user),
        _ => String::from_str(rt.alloc(), "none"),
    }
}
