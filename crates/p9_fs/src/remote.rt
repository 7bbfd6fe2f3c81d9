//! Commands on the files of a server.

use crate::connect::{Client, ROOT};
use crate::failure::{Failure, finish_output, report, report_about, report_text};
use crate::names::names_of;
use crate::printing::{long_line, print, stat_line};
use p9_base::{DMDIR, Name, Qid};
use p9_client::{ClientError, Entry, FileError, LISTING_MAX, Opened, Stream};
use p9_shown::AsShown;
use p9_wire::Stat;
use std::alloc::{AllocError, Global};

/// The fid of the file that a command is about.
pub const FILE: u32 = 1;

// The mode of open(5) to read.
const OREAD: u8 = 0;

// The bit of a qid's type that a directory has.
const QTDIR: u8 = 0x80;

/// The bits of a mode that say who may do what.
pub const PERMISSIONS: u32 = 0o777;

// The permissions of a new directory.
const NEW_DIR: u32 = 0o755;

/// Makes the fid of the file of a path.
pub fn walk_to<S: Stream + Drop>(
    rt: &HostRuntime,
    client: &mut Client<S>,
    path: &str,
) -> Result<(), Failure> {
    match walk(rt.alloc(), client, path) {
        Ok(()) => Ok(()),
        Err(error) => Err(report(rt, path, &error)),
    }
}

/// Makes the fid of the file of a path, and reports nothing.
pub fn walk<S: Stream + Drop>(
    alloc: Global,
    client: &mut Client<S>,
    path: &str,
) -> Result<(), FileError> {
    let names = names_of(alloc, path)?;
    client.walk_path(ROOT, FILE, names.as_slice())
}

/// Makes the fid of the directory that the file of a path is in, and returns the file's name.
pub fn walk_to_parent<'a, S: Stream + Drop>(
    rt: &HostRuntime,
    client: &mut Client<S>,
    path: &'a str,
) -> Result<&'a str, Failure> {
    let names = names_of(rt.alloc(), path)?;
    let Some((name, parents)) = names.as_slice().split_last() else {
        return Err(report_text(rt, "the root has no name", Failure::Refused));
    };
    let name = *name;
    match client.walk_path(ROOT, FILE, parents) {
        Ok(()) => Ok(name),
        Err(error) => Err(report(rt, path, &error)),
    }
}

/// Forgets the fid of the file after what was done with it, of which a failure was reported.
pub fn clunk_after<S: Stream + Drop, T: Drop>(
    rt: &HostRuntime,
    client: &mut Client<S>,
    path: &str,
    done: Result<T, Failure>,
) -> Result<T, Failure> {
    match (done, client.clunk(FILE)) {
        (Ok(value), Ok(())) => Ok(value),
        (Err(failure), _) => Err(failure),
        (Ok(_), Err(error)) => Err(report(rt, path, &FileError::Session(error))),
    }
}

/// Forgets the fid of the file, and returns what was done with it, of which a failure is reported.
pub fn finish<S: Stream + Drop, T: Drop>(
    rt: &HostRuntime,
    client: &mut Client<S>,
    path: &str,
    done: Result<T, FileError>,
) -> Result<T, Failure> {
    let clunked = client.clunk(FILE);
    match (done, clunked) {
        (Err(error), _) => Err(report(rt, path, &error)),
        (Ok(_), Err(error)) => Err(report(rt, path, &FileError::Session(error))),
        (Ok(value), Ok(())) => Ok(value),
    }
}

/// What the server reports of the file of a path.
pub fn stat_of<S: Stream + Drop>(
    rt: &HostRuntime,
    client: &mut Client<S>,
    path: &str,
) -> Result<Entry<Global>, Failure> {
    walk_to(rt, client, path)?;
    let done = client.stat(rt.alloc(), FILE).map_err(FileError::Session);
    finish(rt, client, path, done)
}

/// The entries of the directory of a path, which are so many bytes at most.
pub fn entries_of<S: Stream + Drop>(
    rt: &HostRuntime,
    client: &mut Client<S>,
    path: &str,
    most: u32,
) -> Result<Vec<Entry<Global>>, Failure> {
    walk_to(rt, client, path)?;
    let done = listed(rt.alloc(), client, most);
    finish(rt, client, path, done)
}

// Opens the directory, and lists it.
fn listed<S: Stream + Drop>(
    alloc: Global,
    client: &mut Client<S>,
    most: u32,
) -> Result<Vec<Entry<Global>>, FileError> {
    client.open(FILE, OREAD)?;
    client.list_within(alloc, FILE, most)
}

/// What is printed of a file that is listed.
#[derive(Clone, Copy)]
pub enum Listing {
    /// Its name.
    Short,
    /// Its [`long_line`].
    Long,
}

/// Lists the entries of a directory, or a file.
pub fn list<S: Stream + Drop>(
    rt: &HostRuntime,
    client: &mut Client<S>,
    path: &str,
    listing: Listing,
) -> Result<(), Failure> {
    let entry = stat_of(rt, client, path)?;
    if entry.is_dir() {
        let entries = entries_of(rt, client, path, LISTING_MAX)?;
        print_sorted(rt, entries.as_slice(), listing)
    } else {
        print_entry(rt, &entry, listing)
    }
}

// Prints entries in the order of their names.
fn print_sorted(
    rt: &HostRuntime,
    entries: &[Entry<Global>],
    listing: Listing,
) -> Result<(), Failure> {
    let order = by_name(rt.alloc(), entries)?;
    print_entries(rt, entries, order.as_slice(), listing)
}

// The places of entries, in the order of their names.
fn by_name(alloc: Global, entries: &[Entry<Global>]) -> Result<Vec<(&str, usize)>, AllocError> {
    let mut order = Vec::new(alloc);
    for (at, entry) in entries.iter().enumerate() {
        order.push((entry.name.as_str(), at))?;
    }
    order.sort_unstable();
    Ok(order)
}

// Prints entries in an order.
fn print_entries(
    rt: &HostRuntime,
    entries: &[Entry<Global>],
    order: &[(&str, usize)],
    listing: Listing,
) -> Result<(), Failure> {
    for (_, at) in order {
        if let Some(entry) = entries.get(*at) {
            print_entry(rt, entry, listing)?;
        }
    }
    Ok(())
}

// Prints an entry.
fn print_entry(rt: &HostRuntime, entry: &Entry<Global>, listing: Listing) -> Result<(), Failure> {
    match listing {
        Listing::Short => print(rt, &AsShown(entry.name.as_str())),
        Listing::Long => print(rt, &long_line(rt.alloc(), entry)?),
    }
}

/// Prints all that the server reports of a file.
pub fn print_stat<S: Stream + Drop>(
    rt: &HostRuntime,
    client: &mut Client<S>,
    path: &str,
) -> Result<(), Failure> {
    let entry = stat_of(rt, client, path)?;
    print(rt, &stat_line(rt.alloc(), &entry)?)
}

/// Writes the bytes of a file to the standard output. A directory is refused.
pub fn cat<S: Stream + Drop>(
    rt: &HostRuntime,
    client: &mut Client<S>,
    path: &str,
) -> Result<(), Failure> {
    if stat_of(rt, client, path)?.is_dir() {
        return Err(report_about(rt, path, &"is a directory", Failure::Refused));
    }
    open_file(rt, client, path)?;
    let done = read_out(rt, client, path);
    clunk_after(rt, client, path, done)
}

/// Opens the file of a path to read it. One that is a directory now is refused.
pub fn open_file<S: Stream + Drop>(
    rt: &HostRuntime,
    client: &mut Client<S>,
    path: &str,
) -> Result<(), Failure> {
    walk_to(rt, client, path)?;
    match client.open(FILE, OREAD) {
        Ok(Opened { qid, .. }) if qid.kind & QTDIR == 0 => Ok(()),
        Ok(_) => {
            let failure = report_about(rt, path, &"is a directory now", Failure::Refused);
            clunk_after(rt, client, path, Err(failure))
        }
        Err(error) => {
            let failure = report(rt, path, &FileError::Session(error));
            clunk_after(rt, client, path, Err(failure))
        }
    }
}

// Writes the bytes of the open file to the standard output.
fn read_out<S: Stream + Drop>(
    rt: &HostRuntime,
    client: &mut Client<S>,
    path: &str,
) -> Result<(), Failure> {
    match client.read_to(FILE, &mut rt.stdout()) {
        Ok(_) => Ok(()),
        Err(FileError::Output(error)) => finish_output(rt, Err(error)),
        Err(error) => Err(report(rt, path, &error)),
    }
}

/// Makes a directory.
pub fn make_dir<S: Stream + Drop>(
    rt: &HostRuntime,
    client: &mut Client<S>,
    path: &str,
) -> Result<(), Failure> {
    match try_make_dir(rt, client, path, NEW_DIR) {
        Ok(()) => Ok(()),
        Err(error) => Err(error.report(rt, path)),
    }
}

/// Why a directory is not made.
#[derive(Drop)]
pub enum NotMade {
    /// A call of the session failed, which is not reported yet.
    Unreported(ClientError),
    /// The directory above could not be had, which is reported.
    Reported(Failure),
}

impl NotMade {
    /// Reports why the directory of a path is not made, unless that is done, and returns how the command
    /// failed.
    pub fn report(self, rt: &HostRuntime, path: &str) -> Failure {
        match self {
            NotMade::Unreported(error) => report(rt, path, &FileError::Session(error)),
            NotMade::Reported(failure) => failure,
        }
    }
}

impl From<ClientError> for NotMade {
    fn from(error: ClientError) -> NotMade {
        NotMade::Unreported(error)
    }
}

impl From<Failure> for NotMade {
    fn from(failure: Failure) -> NotMade {
        NotMade::Reported(failure)
    }
}

/// Makes a directory with these permissions.
pub fn try_make_dir<S: Stream + Drop>(
    rt: &HostRuntime,
    client: &mut Client<S>,
    path: &str,
    permissions: u32,
) -> Result<(), NotMade> {
    let name = walk_to_parent(rt, client, path)?;
    let made = client.create(FILE, name, DMDIR | permissions, OREAD);
    let clunked = client.clunk(FILE);
    made?;
    Ok(clunked?)
}

/// Makes a directory, and those above it that are not there. A directory that is there is no error.
pub fn make_dirs<S: Stream + Drop>(
    rt: &HostRuntime,
    client: &mut Client<S>,
    path: &str,
) -> Result<(), Failure> {
    let names = names_of(rt.alloc(), path)?;
    let mut here = String::from_str(rt.alloc(), "/")?;
    for name in names.as_slice() {
        make_below(rt, client, &mut here, name)?;
    }
    Ok(())
}

// Makes the directory of a name below a path, unless it is there, and adds the name to the path.
fn make_below<S: Stream + Drop>(
    rt: &HostRuntime,
    client: &mut Client<S>,
    here: &mut String,
    name: &str,
) -> Result<(), Failure> {
    if here.len() > 1 {
        here.push('/')?;
    }
    here.push_str(name)?;
    make_missing(rt, client, here.as_str())
}

// Makes a directory, unless it is there.
fn make_missing<S: Stream + Drop>(
    rt: &HostRuntime,
    client: &mut Client<S>,
    path: &str,
) -> Result<(), Failure> {
    if let Some(entry) = found(rt, client, path)? {
        return need_dir(rt, path, &entry);
    }
    match try_make_dir(rt, client, path, NEW_DIR) {
        Ok(()) => Ok(()),
        Err(NotMade::Reported(failure)) => Err(failure),
        // Another client may have made it meanwhile.
        Err(error) => match found(rt, client, path)? {
            Some(entry) => need_dir(rt, path, &entry),
            None => Err(error.report(rt, path)),
        },
    }
}

// Refuses what is no directory.
fn need_dir(rt: &HostRuntime, path: &str, entry: &Entry<Global>) -> Result<(), Failure> {
    if entry.is_dir() {
        return Ok(());
    }
    Err(report_about(rt, path, &"not a directory", Failure::Refused))
}

/// What the server reports of the file of a path, or nothing where it refuses to walk there.
pub fn found<S: Stream + Drop>(
    rt: &HostRuntime,
    client: &mut Client<S>,
    path: &str,
) -> Result<Option<Entry<Global>>, Failure> {
    match walk(rt.alloc(), client, path) {
        Ok(()) => {}
        Err(error) if error.ends_session() => return Err(report(rt, path, &error)),
        Err(FileError::NoMemory) => return Err(Failure::NoMemory),
        Err(_) => return Ok(None),
    }
    let done = client.stat(rt.alloc(), FILE).map_err(FileError::Session);
    Ok(Some(finish(rt, client, path, done)?))
}

/// Removes a file or an empty directory.
pub fn remove<S: Stream + Drop>(
    rt: &HostRuntime,
    client: &mut Client<S>,
    path: &str,
) -> Result<(), Failure> {
    walk_to(rt, client, path)?;
    // The fid is forgotten also where this is refused.
    match client.remove(FILE) {
        Ok(()) => Ok(()),
        Err(error) => Err(report(rt, path, &FileError::Session(error))),
    }
}

/// Gives a file another name, in the same directory. What is no name is refused.
pub fn rename<S: Stream + Drop>(
    rt: &HostRuntime,
    client: &mut Client<S>,
    path: &str,
    name: &str,
) -> Result<(), Failure> {
    if Name::new(name).is_none() {
        let what = "no name, which has 1 to 255 bytes, no slash, and is neither '.' nor '..'";
        let text = format!(in rt.alloc(); "'{name}'")?;
        return Err(report_about(rt, text.as_str(), &what, Failure::BadWords));
    }
    let mut stat = untouched();
    stat.name = name;
    change(rt, client, path, stat)
}

/// Gives a file other permissions. The other bits of its mode are as they were.
pub fn change_mode<S: Stream + Drop>(
    rt: &HostRuntime,
    client: &mut Client<S>,
    path: &str,
    permissions: u32,
) -> Result<(), Failure> {
    let mode = stat_of(rt, client, path)?.mode;
    let mut stat = untouched();
    stat.mode = with_permissions(mode, permissions);
    change(rt, client, path, stat)
}

/// A mode with other permissions.
pub fn with_permissions(mode: u32, permissions: u32) -> u32 {
    mode & !PERMISSIONS | permissions & PERMISSIONS
}

// Changes what is given of the stat of a file.
fn change<S: Stream + Drop>(
    rt: &HostRuntime,
    client: &mut Client<S>,
    path: &str,
    stat: Stat<'_>,
) -> Result<(), Failure> {
    walk_to(rt, client, path)?;
    let done = client.wstat(FILE, stat).map_err(FileError::Session);
    finish(rt, client, path, done)
}

/// A stat that changes nothing, as stat(5).
pub fn untouched<'a>() -> Stat<'a> {
    Stat {
        kind: u16::MAX,
        dev: u32::MAX,
        qid: Qid {
            kind: u8::MAX,
            version: u32::MAX,
            path: u64::MAX,
        },
        mode: u32::MAX,
        atime: u32::MAX,
        mtime: u32::MAX,
        length: u64::MAX,
        name: "",
        uid: "",
        gid: "",
        muid: "",
    }
}
