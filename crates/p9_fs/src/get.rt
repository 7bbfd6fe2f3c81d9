//! Files copied from a server to the system.

use crate::connect::Client;
use crate::failure::{Failure, Outcome, finish_local, report, report_about, report_local};
use crate::limits::{Left, Limits};
use crate::names::{is_inside, joined};
use crate::owners::Owners;
use crate::remote::{FILE, PERMISSIONS, clunk_after, entries_of, open_file, stat_of};
use crate::sink::Sink;
use p9_client::{Entry, FileError, Stream};
use p9_files::NewFile;
use std::alloc::{AllocError, Global};
use std::fs::{self, DirBuilder, File, Permissions};
use std::io::ErrorKind;
use std::os::unix::fs::{DirBuilderExt, PermissionsExt};

// The mode of a directory until all that is in it was copied.
const DIR_MODE: u32 = 0o700;

/// How files are copied from a server.
#[derive(Clone, Copy)]
pub struct GetOptions<'a> {
    /// Whether a directory is copied with all that is in it.
    pub is_recursive: bool,
    /// Whether files get the server's modes as they are, and where that may be, its owners.
    pub keeps: bool,
    /// The file that gets the lines of a world, if one is named.
    pub owners: Option<&'a str>,
    pub limits: Limits,
}

// What a file is copied from, and where it goes.
#[derive(Drop)]
struct Pending {
    entry: Entry<Global>,
    path: String,
    local: String,
    // How many directories it is in, from the one that was asked for.
    depth: usize,
}

// A copying: what is left of its limits, the bits of modes that are not taken, the directories that were
// made, each with what it gets at the end, and the owners, where they are written.
#[derive(Drop)]
struct Getting {
    left: Left,
    keeps: bool,
    masked: u32,
    made: Vec<Made>,
    owners: Owners,
}

// A directory of the system that was made.
#[derive(Drop)]
struct Made {
    entry: Entry<Global>,
    local: String,
}

/// Copies a file of the server to a file of the system, which is as it was until all has come. A
/// directory is refused, or copied with all that is in it: then what can't be copied is reported, and
/// the rest is copied.
pub fn get<S: Stream + Drop>(
    rt: &HostRuntime,
    client: &mut Client<S>,
    path: &str,
    local: &str,
    options: GetOptions<'_>,
) -> Result<(), Failure> {
    let first = first_of(rt, client, path, local)?;
    let is_dir = first.entry.is_dir();
    if is_dir && !options.is_recursive {
        return Err(report_about(rt, path, &"is a directory", Failure::Refused));
    }
    let mut getting = Getting::begin(rt, root_of(path, is_dir), options)?;
    let done = getting.get_all(rt, client, first);
    getting.end(rt, done)
}

// The file of a path, which is to be copied.
fn first_of<S: Stream + Drop>(
    rt: &HostRuntime,
    client: &mut Client<S>,
    path: &str,
    local: &str,
) -> Result<Pending, Failure> {
    let entry = stat_of(rt, client, path)?;
    let path = String::from_str(rt.alloc(), path)?;
    let local = String::from_str(rt.alloc(), local)?;
    Ok(Pending {
        entry,
        path,
        local,
        depth: 0,
    })
}

// The path of the directory that is copied, or of the one that a file is in.
fn root_of(path: &str, is_dir: bool) -> &str {
    if is_dir {
        return path;
    }
    match path.trim_end_matches('/').rsplit_once('/') {
        Some((dir, _)) => dir,
        None => "",
    }
}

// The bits that this process takes off the modes of its files.
fn umask(rt: &HostRuntime) -> u32 {
    let Ok(status) = fs::read_to_string(rt, "/proc/self/status") else {
        return 0o022;
    };
    for line in status.split('\n') {
        if let Some(digits) = line.strip_prefix("Umask:\t") {
            return u32::from_str_radix(digits, 8).unwrap_or(0o022);
        }
    }
    0o022
}

// The directory of the system that was made for one of the server.
fn made_of(dir: Pending) -> Made {
    let Pending {
        entry,
        local,
        path: _path,
        depth: _,
    } = dir;
    Made { entry, local }
}

impl Getting {
    // Nothing was copied yet of the tree of a path.
    fn begin(rt: &HostRuntime, root: &str, options: GetOptions<'_>) -> Result<Getting, Failure> {
        Ok(Getting {
            left: Left::all(options.limits),
            keeps: options.keeps,
            masked: if options.keeps { 0 } else { umask(rt) },
            made: Vec::new(rt.alloc()),
            owners: Owners::begin(rt, root, options.owners, options.keeps)?,
        })
    }

    // Ends a copying that came to this: what was made gets its modes, and the owners are written.
    fn end(&self, rt: &HostRuntime, done: Result<(), Failure>) -> Result<(), Failure> {
        let modes = self.set_modes(rt);
        let owners = self.owners.end(rt);
        done?;
        modes?;
        owners
    }

    // Copies a file, or a directory with all that is in it.
    fn get_all<S: Stream + Drop>(
        &mut self,
        rt: &HostRuntime,
        client: &mut Client<S>,
        first: Pending,
    ) -> Result<(), Failure> {
        self.left.count(rt, first.path.as_str(), first.depth)?;
        let mut pending = Vec::new(rt.alloc());
        pending.push(first)?;
        self.get_pending(rt, client, &mut pending)
    }

    // Copies what is to be copied, the last one first. What can't be copied is reported, and the rest is
    // copied.
    fn get_pending<S: Stream + Drop>(
        &mut self,
        rt: &HostRuntime,
        client: &mut Client<S>,
        pending: &mut Vec<Pending>,
    ) -> Result<(), Failure> {
        let mut outcome = Outcome::new();
        for _ in 0..u64::MAX {
            let Some(next) = pending.pop() else {
                break;
            };
            outcome.note(self.get_next(rt, client, next, pending))?;
        }
        outcome.end()
    }

    // Copies the next file, or makes the next directory and adds what is in it.
    fn get_next<S: Stream + Drop>(
        &mut self,
        rt: &HostRuntime,
        client: &mut Client<S>,
        next: Pending,
        pending: &mut Vec<Pending>,
    ) -> Result<(), Failure> {
        if !next.entry.is_dir() {
            return self.get_file(rt, client, &next);
        }
        let is_made = make_dir(rt, &next)?;
        let noted = self.owners.note_dir(rt, next.path.as_str(), &next.entry);
        let added = self.push_entries(rt, client, &next, pending);
        if is_made {
            self.made.push(made_of(next))?;
        }
        noted?;
        added
    }

    // Adds the entries of a directory.
    fn push_entries<S: Stream + Drop>(
        &mut self,
        rt: &HostRuntime,
        client: &mut Client<S>,
        dir: &Pending,
        pending: &mut Vec<Pending>,
    ) -> Result<(), Failure> {
        let entries = entries_of(rt, client, dir.path.as_str(), self.left.listing())?;
        let mut outcome = Outcome::new();
        for entry in entries {
            outcome.note(self.push_entry(rt, entry, dir, pending))?;
        }
        outcome.end()
    }

    // Adds an entry of a directory. A name that leads elsewhere is reported.
    fn push_entry(
        &mut self,
        rt: &HostRuntime,
        entry: Entry<Global>,
        dir: &Pending,
        pending: &mut Vec<Pending>,
    ) -> Result<(), Failure> {
        if !is_inside(entry.name.as_str()) {
            return Err(leads_elsewhere(rt, dir.path.as_str(), entry.name.as_str()));
        }
        let next = pending_in(rt.alloc(), dir, entry)?;
        self.left.count(rt, next.path.as_str(), next.depth)?;
        pending.push(next)?;
        Ok(())
    }

    // Copies a file.
    fn get_file<S: Stream + Drop>(
        &mut self,
        rt: &HostRuntime,
        client: &mut Client<S>,
        next: &Pending,
    ) -> Result<(), Failure> {
        let path = next.path.as_str();
        open_file(rt, client, path)?;
        match NewFile::create(rt, rt.alloc(), next.local.as_str()) {
            Ok(file) => self.fill(rt, client, next, file),
            Err(error) => {
                let failure = report_local(rt, next.local.as_str(), &error);
                clunk_after(rt, client, path, Err(failure))
            }
        }
    }

    // Writes the bytes of the server's open file to a new file, which takes its place once it is whole.
    fn fill<S: Stream + Drop>(
        &mut self,
        rt: &HostRuntime,
        client: &mut Client<S>,
        next: &Pending,
        file: NewFile<File, Global>,
    ) -> Result<(), Failure> {
        let mut sink = Sink {
            file,
            left: self.left.bytes(),
            is_exceeded: false,
            is_copied: self.owners.are_noted(),
            copy: Vec::new(rt.alloc()),
        };
        let read = self.read_in(rt, client, next, &mut sink);
        let read = clunk_after(rt, client, next.path.as_str(), read);
        let Sink {
            file,
            copy,
            left: _,
            is_exceeded: _,
            is_copied: _,
        } = sink;
        end_file(
            rt,
            next.local.as_str(),
            file,
            self.mode_of(&next.entry),
            read,
        )?;
        self.end_copied(rt, next, copy.as_slice())
    }

    // Notes a file that was copied with its bytes, and gives it its owner.
    fn end_copied(
        &mut self,
        rt: &HostRuntime,
        next: &Pending,
        bytes: &[u8],
    ) -> Result<(), Failure> {
        self.owners
            .note_file(rt, next.path.as_str(), &next.entry, bytes)?;
        self.owners.give(rt, next.local.as_str(), &next.entry)
    }

    // Reads the server's open file, as far as the limits go.
    fn read_in<S: Stream + Drop>(
        &mut self,
        rt: &HostRuntime,
        client: &mut Client<S>,
        next: &Pending,
        sink: &mut Sink,
    ) -> Result<(), Failure> {
        let path = next.path.as_str();
        let count = match client.read_to(FILE, sink) {
            Ok(count) => count,
            Err(FileError::Output(_)) if sink.is_exceeded => u64::MAX,
            Err(FileError::Output(error)) => return Err(report_local(
                rt,
                next.local.as_str(),
                &error,
            )),
            Err(error) => return Err(report(rt, path, &error)),
        };
        self.left.take_bytes(rt, path, count)
    }

    // The mode that a file of the system gets for one of the server.
    fn mode_of(&self, entry: &Entry<Global>) -> u32 {
        entry.mode & PERMISSIONS & !self.masked
    }

    // Gives the directories that were made their modes and owners, the last one first: a directory is
    // closed to its owner only after those in it have theirs.
    fn set_modes(&self, rt: &HostRuntime) -> Result<(), Failure> {
        let mut outcome = Outcome::new();
        for dir in self.made.iter().rev() {
            self.set_mode(rt, dir, &mut outcome)?;
        }
        outcome.end()
    }

    // Gives a directory that was made its owner, and then its mode.
    fn set_mode(&self, rt: &HostRuntime, dir: &Made, outcome: &mut Outcome) -> Result<(), Failure> {
        let local = dir.local.as_str();
        outcome.note(self.owners.give(rt, local, &dir.entry))?;
        let permissions = Permissions::from_mode(self.mode_of(&dir.entry));
        let set = fs::set_permissions(rt, local, permissions);
        outcome.note(finish_local(rt, local, set))
    }
}

// Reports that a file of a directory has a name that leads elsewhere, and returns how its copy failed.
fn leads_elsewhere(rt: &HostRuntime, dir: &str, name: &str) -> Failure {
    match format!(in rt.alloc(); "a file is named '{name}'") {
        Ok(text) => report_about(rt, dir, &text.as_str(), Failure::Refused),
        Err(_) => Failure::NoMemory,
    }
}

// What an entry of a directory is copied from, and where it goes.
fn pending_in(alloc: Global, dir: &Pending, entry: Entry<Global>) -> Result<Pending, AllocError> {
    let path = joined(alloc, dir.path.as_str(), entry.name.as_str())?;
    let local = joined(alloc, dir.local.as_str(), entry.name.as_str())?;
    Ok(Pending {
        entry,
        path,
        local,
        depth: dir.depth.saturating_add(1),
    })
}

// Ends a new file into which was read: it takes its place with this mode, or is discarded where that
// failed.
fn end_file(
    rt: &HostRuntime,
    local: &str,
    file: NewFile<File, Global>,
    mode: u32,
    read: Result<(), Failure>,
) -> Result<(), Failure> {
    if let Err(failure) = read {
        finish_local(rt, local, file.discard(rt))?;
        return Err(failure);
    }
    finish_local(rt, local, file.finish(rt, mode))
}

// Makes the directory of the system for one of the server, where there is none. Returns whether it was
// made. What is there and no directory, as a link, is refused; but the first directory, which the words
// name, may be a link to one.
fn make_dir(rt: &HostRuntime, next: &Pending) -> Result<bool, Failure> {
    let local = next.local.as_str();
    let found = if next.depth == 0 {
        fs::metadata(rt, local)
    } else {
        fs::symlink_metadata(rt, local)
    };
    match found {
        Ok(metadata) if metadata.is_dir() => Ok(false),
        Ok(metadata) => {
            let what = if metadata.is_symlink() {
                "is a link"
            } else {
                "is no directory"
            };
            Err(report_about(rt, local, &what, Failure::Local))
        }
        Err(error) if error.kind() == ErrorKind::NotFound => {
            let made = DirBuilder::new().mode(DIR_MODE).create(rt, local);
            finish_local(rt, local, made)?;
            Ok(true)
        }
        Err(error) => Err(report_local(rt, local, &error)),
    }
}
