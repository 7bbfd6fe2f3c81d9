//! Calls of a session by their words, and what they come to, as a text.

use p9_base::{DMDIR, Qid, words};
use p9_client::{ClientError, Entry, FileError, Session, Stream};
use p9_wire::Stat;
use std::alloc::{AllocError, Allocator};
use std::str::from_utf8;

// The most bytes of a listing that ends early. That is two entries.
const LISTING: u32 = 100;

/// Adds what a call of a session comes to: `done`, or the text of its error.
pub fn tell_answer<T>(came: &Result<T, ClientError>, told: &mut String) -> Result<(), AllocError> {
    match came {
        Ok(_) => told.push_str("done"),
        Err(error) => write!(told, "{error}"),
    }
}

/// The same of a call of a file.
pub fn tell<T>(came: &Result<T, FileError>, told: &mut String) -> Result<(), AllocError> {
    match came {
        Ok(_) => told.push_str("done"),
        Err(error) => write!(told, "{error}"),
    }
}

/// Adds what a call comes to, with what it gives. Memory for that is of this allocator. The fid at the root
/// is 0, and 1 is another one.
pub fn call<S: Stream + Drop, A: Allocator + Copy>(
    session: &mut Session<S, A>,
    lent: A,
    line: &str,
    told: &mut String,
) -> Result<(), AllocError> {
    let (name, rest) = line.split_once(' ').unwrap_or((line, ""));
    match name {
        "version" => tell_answer(&session.version(), told),
        "attach" => tell_answer(&session.attach(0, rest, ""), told),
        "walk" => walk(session, lent, rest, told),
        "clunk" => tell_answer(&session.clunk(1), told),
        "open" => tell_answer(&session.open(1, 0), told),
        "read" => tell_answer(&session.read(1, 0, &mut [0; 4]), told),
        "write" => tell_answer(&session.write(1, 0, b"hi"), told),
        _ => call_of_file(session, lent, name, rest, told),
    }
}

// The same of a call that makes a file or a directory, lists one, or changes one.
fn call_of_file<S: Stream + Drop, A: Allocator + Copy>(
    session: &mut Session<S, A>,
    lent: A,
    name: &str,
    rest: &str,
    told: &mut String,
) -> Result<(), AllocError> {
    match name {
        "make" => tell_answer(&session.create(1, rest, 0o644, 1), told),
        "mkdir" => tell_answer(&session.create(1, rest, DMDIR | 0o755, 0), told),
        "rename" => tell_answer(&session.wstat(1, renaming(rest)), told),
        "remove" => tell_answer(&session.remove(1), told),
        "put" => tell(&session.write_whole(1, rest.as_bytes()), told),
        "get" => get(session, lent, told),
        "stat" => stat(session, lent, told),
        "list" => list(&session.list(lent, 1), told),
        _ => list(&session.list_within(lent, 1, LISTING), told),
    }
}

// A walk to the names.
fn walk<S: Stream + Drop, A: Allocator + Copy>(
    session: &mut Session<S, A>,
    lent: A,
    names: &str,
    told: &mut String,
) -> Result<(), AllocError> {
    let names = words(lent, names)?;
    let came = session.walk_path(0, 1, names.as_slice());
    drop(names);
    tell(&came, told)
}

// A whole file, with its bytes.
fn get<S: Stream + Drop, A: Allocator + Copy>(
    session: &mut Session<S, A>,
    lent: A,
    told: &mut String,
) -> Result<(), AllocError> {
    let mut out = Vec::new(lent);
    let came = session.read_to(1, &mut out);
    let said = tell_bytes(&came, out.as_slice(), told);
    drop(out);
    said
}

fn tell_bytes(
    came: &Result<u64, FileError>,
    bytes: &[u8],
    told: &mut String,
) -> Result<(), AllocError> {
    tell(came, told)?;
    told.push_str(" ")?;
    told.push_str(from_utf8(bytes).unwrap_or("no text"))
}

// A stat, with its name and its length.
fn stat<S: Stream + Drop, A: Allocator + Copy>(
    session: &mut Session<S, A>,
    lent: A,
    told: &mut String,
) -> Result<(), AllocError> {
    match &session.stat(lent, 1) {
        Ok(entry) => write!(told, "done {} {}", entry.name.as_str(), entry.length),
        Err(error) => write!(told, "{error}"),
    }
}

// A listing, with its names. That of a directory ends in a slash.
fn list<A: Allocator + Copy>(
    came: &Result<Vec<Entry<A>, A>, FileError>,
    told: &mut String,
) -> Result<(), AllocError> {
    tell(came, told)?;
    if let Ok(entries) = came {
        for entry in entries.as_slice() {
            let end = if entry.is_dir() { "/" } else { "" };
            write!(told, " {}{end}", entry.name.as_str())?;
        }
    }
    Ok(())
}

// A stat that changes nothing but the name.
fn renaming(name: &str) -> Stat<'_> {
    Stat {
        kind: u16::MAX,
        dev: u32::MAX,
        qid: Qid {
            kind: u8::MAX,
            version: u32::MAX,
            path: u64::MAX,
        },
        mode: u32::MAX,
        atime: u32::MAX,
        mtime: u32::MAX,
        length: u64::MAX,
        name,
        uid: "",
        gid: "",
        muid: "",
    }
}
