//! Lines about files.

use crate::failure::{Failure, finish_output};
use jiff::Timestamp;
use jiff::tz::TimeZone;
use p9_base::{DMAPPEND, DMDIR, DMEXCL};
use p9_client::Entry;
use p9_shown::AsShown;
use std::alloc::{AllocError, Global};
use std::fmt;
use std::fmt::{Display, Formatter};

/// A file's line, as `ls -l` of Plan 9 prints it: its mode, `M` for a file of a server and the
/// server's number, owner, group, length, the day of its last change, and its name.
pub fn long_line(alloc: Global, entry: &Entry<Global>) -> Result<String, AllocError> {
    let mode = Letters(entry.mode);
    let (dev, length) = (entry.dev, entry.length);
    let uid = AsShown(entry.uid.as_str());
    let gid = AsShown(entry.gid.as_str());
    let name = AsShown(entry.name.as_str());
    let day = day_of(alloc, entry.mtime)?;
    format!(in alloc; "{mode} M {dev} {uid} {gid} {length} {day} {name}")
}

/// All that a server reports of a file, as fcall(2) of Plan 9 prints it.
pub fn stat_line(alloc: Global, entry: &Entry<Global>) -> Result<String, AllocError> {
    let name = AsShown(entry.name.as_str());
    let uid = AsShown(entry.uid.as_str());
    let gid = AsShown(entry.gid.as_str());
    let muid = AsShown(entry.muid.as_str());
    let (path, version, kind) = (entry.qid.path, entry.qid.version, entry.qid.kind);
    let (mode, atime, mtime) = (entry.mode, entry.atime, entry.mtime);
    let (length, device, dev) = (entry.length, entry.kind, entry.dev);
    format!(in alloc;
        "'{name}' '{uid}' '{gid}' '{muid}' q ({path:x} {version} {kind:x}) m 0{mode:o} at {atime} mt {mtime} l {length} t {device} d {dev}"
    )
}

// The letters of a mode: `d` for a directory, `a` for a file that is only appended to, then `l` for
// one that is open once at a time, and the rights of its owner, its group and others.
#[derive(Clone, Copy)]
struct Letters(u32);

impl Display for Letters {
    fn fmt<W: fmt::Write>(&self, f: &mut Formatter<W>) -> fmt::Result {
        let Letters(mode) = *self;
        let kind = if mode & DMDIR != 0 {
            'd'
        } else if mode & DMAPPEND != 0 {
            'a'
        } else {
            '-'
        };
        f.write_char(kind)?;
        f.write_char(if mode & DMEXCL != 0 { 'l' } else { '-' })?;
        for (bit, letter) in RIGHTS {
            f.write_char(if mode & bit != 0 { letter } else { '-' })?;
        }
        Ok(())
    }
}

// The bits of rights, and their letters.
const RIGHTS: [(u32, char); 9] = [
    (0o400, 'r'),
    (0o200, 'w'),
    (0o100, 'x'),
    (0o040, 'r'),
    (0o020, 'w'),
    (0o010, 'x'),
    (0o004, 'r'),
    (0o002, 'w'),
    (0o001, 'x'),
];

// The day of so many seconds after 1970 began.
fn day_of(alloc: Global, seconds: u32) -> Result<String, AllocError> {
    let Ok(time) = Timestamp::from_second(i64::from(seconds)) else {
        return String::from_str(alloc, "-");
    };
    match time.to_zoned(TimeZone::UTC).strftime(alloc, "%b %e %Y") {
        Ok(day) => Ok(day),
        Err(_) => Err(AllocError),
    }
}

/// Prints a line. A failure of the output is reported.
pub fn print(rt: &HostRuntime, line: &impl Display) -> Result<(), Failure> {
    finish_output(rt, println!(rt; "{line}"))
}
