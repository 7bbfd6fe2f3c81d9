//! Files copied from the system to a server.

use crate::connect::Client;
use crate::failure::{Failure, Outcome, finish_local, report, report_about, report_local};
use crate::names::joined;
use crate::remote::{
    FILE, PERMISSIONS, change_mode, clunk_after, found, try_make_dir, untouched, walk,
    walk_to_parent, with_permissions,
};
use p9_base::DMAPPEND;
use p9_client::{ClientError, FileError, Stream};
use p9_files::Dir;
use p9_wire::Stat;
use std::alloc::{AllocError, Global};
use std::fs;
use std::fs::{File, Metadata};
use std::io::{self, Read};
use std::os::unix::fs::PermissionsExt;

// The modes of open(5) to write, and to write from nothing on.
const OWRITE: u8 = 1;

const OTRUNC: u8 = 0x10;

// What the owner of a new directory may do until all that is in it was copied.
const OWNER_ALL: u32 = 0o700;

/// Copies a file of the system to a file of the server, which is made with the same permissions where
/// it is not there. A directory is refused, or copied with all that is in it: then links and devices
/// are reported and left out, and what can't be copied is reported, and the rest is copied.
pub fn put<S: Stream + Drop>(
    rt: &HostRuntime,
    client: &mut Client<S>,
    local: &str,
    path: &str,
    is_recursive: bool,
) -> Result<(), Failure> {
    let metadata = finish_local(rt, local, fs::metadata(rt, local))?;
    if !metadata.is_dir() {
        let bytes = finish_local(rt, local, fs::read(rt, local))?;
        return put_bytes(rt, client, path, &metadata, bytes.as_slice());
    }
    if is_recursive {
        return put_tree(rt, client, local, path);
    }
    Err(report_about(rt, local, &"is a directory", Failure::Local))
}

// Writes these bytes of a file of the system to a file of the server. Where the server refuses so many,
// its file is as it was.
fn put_bytes<S: Stream + Drop>(
    rt: &HostRuntime,
    client: &mut Client<S>,
    path: &str,
    metadata: &Metadata,
    bytes: &[u8],
) -> Result<(), Failure> {
    let mode = metadata.permissions().mode() & PERMISSIONS;
    let length = bytes.len() as u64;
    let target = begin_write(rt, client, path, mode, length)?;
    let done = write_bytes(client, target, bytes);
    match (done, target) {
        (Ok(()), Target::Made) => {
            let given = give_mode(rt, client, path, mode);
            clunk_after(rt, client, path, given)
        }
        (Ok(()), Target::There) => clunk_after(rt, client, path, Ok(())),
        (Err(error), _) => {
            let failure = report(rt, path, &error);
            end_refused(rt, client, path, target, failure)
        }
    }
}

// The server's file that is open to be written.
#[derive(Clone, Copy)]
enum Target {
    // It was made.
    Made,
    // It was there.
    There,
}

// Writes bytes to an open file. The length of one that was made is set first, so that a server refuses
// too many bytes before they are sent.
fn write_bytes<S: Stream + Drop>(
    client: &mut Client<S>,
    target: Target,
    bytes: &[u8],
) -> Result<(), FileError> {
    if matches!(target, Target::Made) {
        client.wstat(FILE, of_length(bytes.len() as u64))?;
    }
    client.write_whole(FILE, bytes)
}

// A stat that changes the length alone.
fn of_length<'a>(length: u64) -> Stat<'a> {
    let mut stat = untouched();
    stat.length = length;
    stat
}

// Ends what was refused: a file that was made is removed.
fn end_refused<S: Stream + Drop>(
    rt: &HostRuntime,
    client: &mut Client<S>,
    path: &str,
    target: Target,
    failure: Failure,
) -> Result<(), Failure> {
    if matches!(target, Target::Made) {
        let _ = client.remove(FILE);
        return Err(failure);
    }
    clunk_after(rt, client, path, Err(failure))
}

// Gives a file that was made its permissions, of which the directory's may have taken some off.
fn give_mode<S: Stream + Drop>(
    rt: &HostRuntime,
    client: &mut Client<S>,
    path: &str,
    mode: u32,
) -> Result<(), Failure> {
    match try_give_mode(rt, client, mode) {
        Ok(()) => Ok(()),
        Err(error) => Err(report(rt, path, &FileError::Session(error))),
    }
}

// The same, with the server's error.
fn try_give_mode<S: Stream + Drop>(
    rt: &HostRuntime,
    client: &mut Client<S>,
    mode: u32,
) -> Result<(), ClientError> {
    let entry = client.stat(rt.alloc(), FILE)?;
    if entry.mode & PERMISSIONS == mode {
        return Ok(());
    }
    let mut stat = untouched();
    stat.mode = with_permissions(entry.mode, mode);
    client.wstat(FILE, stat)
}

// Opens the file of a path to get bytes of this length, or makes it.
fn begin_write<S: Stream + Drop>(
    rt: &HostRuntime,
    client: &mut Client<S>,
    path: &str,
    mode: u32,
    length: u64,
) -> Result<Target, Failure> {
    if opened(rt, client, path, length)? {
        return Ok(Target::There);
    }
    let name = walk_to_parent(rt, client, path)?;
    match client.create(FILE, name, mode, OWRITE) {
        Ok(_) => Ok(Target::Made),
        Err(error) => open_instead(rt, client, path, length, error),
    }
}

// Opens the file of a path after it could not be made.
fn open_instead<S: Stream + Drop>(
    rt: &HostRuntime,
    client: &mut Client<S>,
    path: &str,
    length: u64,
    error: ClientError,
) -> Result<Target, Failure> {
    clunk_after(rt, client, path, Ok(()))?;
    // Another client may have made it meanwhile.
    if !error.ends_session() && opened(rt, client, path, length)? {
        return Ok(Target::There);
    }
    Err(report(rt, path, &FileError::Session(error)))
}

// Opens the file of a path to get bytes of this length. Returns whether it is there.
fn opened<S: Stream + Drop>(
    rt: &HostRuntime,
    client: &mut Client<S>,
    path: &str,
    length: u64,
) -> Result<bool, Failure> {
    match walk(rt.alloc(), client, path) {
        Ok(()) => {}
        Err(error) if error.ends_session() => return Err(report(rt, path, &error)),
        Err(FileError::NoMemory) => return Err(Failure::NoMemory),
        Err(_) => return Ok(false),
    }
    match try_open(rt, client, length) {
        Ok(()) => Ok(true),
        Err(error) => {
            let failure = report(rt, path, &FileError::Session(error));
            clunk_after(rt, client, path, Err(failure))
        }
    }
}

// Opens the file to be written. Its length is set first, so that a server that refuses so many bytes
// does so while the file is as it was. To a file that is only appended to bytes are added.
fn try_open<S: Stream + Drop>(
    rt: &HostRuntime,
    client: &mut Client<S>,
    length: u64,
) -> Result<(), ClientError> {
    let entry = client.stat(rt.alloc(), FILE)?;
    let is_rewritten = !entry.is_dir() && entry.mode & DMAPPEND == 0;
    if is_rewritten {
        client.wstat(FILE, of_length(length))?;
    }
    let truncated = if is_rewritten { OTRUNC } else { 0 };
    client.open(FILE, OWRITE | truncated)?;
    Ok(())
}

// The path of a file of the system, and that of the server's file that it is copied to.
#[derive(Drop)]
struct Paths {
    local: String,
    path: String,
}

// A directory of the system that is copied: it is open, of its entries these are still to be copied, the
// next one last.
#[derive(Drop)]
struct Level {
    dir: Dir,
    names: Vec<String>,
    paths: Paths,
}

// A directory of the server that was made, with the permissions that it gets at the end.
#[derive(Drop)]
struct Made {
    path: String,
    mode: u32,
}

// A tree that is copied: the directories of which entries are still to be copied, and those that were
// made.
#[derive(Drop)]
struct Putting {
    levels: Vec<Level>,
    made: Vec<Made>,
    outcome: Outcome,
}

// Copies a directory with all that is in it.
fn put_tree<S: Stream + Drop>(
    rt: &HostRuntime,
    client: &mut Client<S>,
    local: &str,
    path: &str,
) -> Result<(), Failure> {
    let mut putting = Putting {
        levels: Vec::new(rt.alloc()),
        made: Vec::new(rt.alloc()),
        outcome: Outcome::new(),
    };
    putting.push_first(rt, client, local, path)?;
    putting.put_all(rt, client)
}

// The paths of a file of the system and of the server.
fn paths_of(alloc: Global, local: &str, path: &str) -> Result<Paths, AllocError> {
    let local = String::from_str(alloc, local)?;
    let path = String::from_str(alloc, path)?;
    Ok(Paths { local, path })
}

// The paths of a name in a directory.
fn paths_in(alloc: Global, dir: &Paths, name: &str) -> Result<Paths, AllocError> {
    let local = joined(alloc, dir.local.as_str(), name)?;
    let path = joined(alloc, dir.path.as_str(), name)?;
    Ok(Paths { local, path })
}

impl Putting {
    // Begins the directory of a path.
    fn push_first<S: Stream + Drop>(
        &mut self,
        rt: &HostRuntime,
        client: &mut Client<S>,
        local: &str,
        path: &str,
    ) -> Result<(), Failure> {
        let dir = finish_local(rt, local, Dir::open(local))?;
        let paths = paths_of(rt.alloc(), local, path)?;
        self.push(rt, client, dir, paths)
    }

    // Copies what is in the directories, and then gives those that were made their permissions.
    fn put_all<S: Stream + Drop>(
        &mut self,
        rt: &HostRuntime,
        client: &mut Client<S>,
    ) -> Result<(), Failure> {
        let done = self.put_levels(rt, client);
        self.set_modes(rt, client)?;
        done?;
        self.outcome.end()
    }

    // Begins a directory: makes that of the server, and adds its entries.
    fn push<S: Stream + Drop>(
        &mut self,
        rt: &HostRuntime,
        client: &mut Client<S>,
        dir: Dir,
        paths: Paths,
    ) -> Result<(), Failure> {
        let names = self.begin_dir(rt, client, &dir, &paths)?;
        self.levels.push(Level { dir, names, paths })?;
        Ok(())
    }

    // Makes the directory of the server for one of the system, and returns the names of its entries.
    fn begin_dir<S: Stream + Drop>(
        &mut self,
        rt: &HostRuntime,
        client: &mut Client<S>,
        dir: &Dir,
        paths: &Paths,
    ) -> Result<Vec<String>, Failure> {
        let metadata = finish_local(rt, paths.local.as_str(), dir.metadata(rt))?;
        let names = self.names_in(rt, dir, paths.local.as_str())?;
        let mode = metadata.permissions().mode() & PERMISSIONS;
        self.make(rt, client, paths.path.as_str(), mode)?;
        Ok(names)
    }

    // The names of a directory of the system. That some are not UTF-8 is reported.
    fn names_in(
        &mut self,
        rt: &HostRuntime,
        dir: &Dir,
        local: &str,
    ) -> Result<Vec<String>, Failure> {
        let listing = finish_local(rt, local, dir.names(rt))?;
        if listing.others > 0 {
            let what = "left out: names that are not UTF-8";
            let failure = report_about(rt, local, &what, Failure::Local);
            self.outcome.note(Err(failure))?;
        }
        Ok(listing.names)
    }

    // Makes a directory of the server, unless it is there, and notes one whose permissions are to be set.
    fn make<S: Stream + Drop>(
        &mut self,
        rt: &HostRuntime,
        client: &mut Client<S>,
        path: &str,
        mode: u32,
    ) -> Result<(), Failure> {
        if make_dir(rt, client, path, mode)? {
            let path = String::from_str(rt.alloc(), path)?;
            self.made.push(Made { path, mode })?;
        }
        Ok(())
    }

    // Copies what is in the directories.
    fn put_levels<S: Stream + Drop>(
        &mut self,
        rt: &HostRuntime,
        client: &mut Client<S>,
    ) -> Result<(), Failure> {
        for _ in 0..u64::MAX {
            let Some(level) = self.levels.last_mut() else {
                break;
            };
            let Some(name) = level.names.pop() else {
                let _ = self.levels.pop();
                continue;
            };
            self.put_name(rt, client, name.as_str())?;
        }
        Ok(())
    }

    // Copies the entry of this name of the last directory, and notes how that ended.
    fn put_name<S: Stream + Drop>(
        &mut self,
        rt: &HostRuntime,
        client: &mut Client<S>,
        name: &str,
    ) -> Result<(), Failure> {
        let Some(level) = self.levels.last() else {
            return Ok(());
        };
        let paths = paths_in(rt.alloc(), &level.paths, name)?;
        let done = self.put_entry(rt, client, name, paths);
        self.outcome.note(done)
    }

    // Copies the entry of this name of the last directory.
    fn put_entry<S: Stream + Drop>(
        &mut self,
        rt: &HostRuntime,
        client: &mut Client<S>,
        name: &str,
        paths: Paths,
    ) -> Result<(), Failure> {
        let Some(level) = self.levels.last() else {
            return Ok(());
        };
        let metadata = finish_local(rt, paths.local.as_str(), level.dir.look(rt, name))?;
        if metadata.is_dir() {
            let dir = finish_local(rt, paths.local.as_str(), level.dir.open_dir(name))?;
            return self.push(rt, client, dir, paths);
        }
        put_file(rt, client, &level.dir, name, &paths, &metadata)
    }

    // Gives the directories that were made their permissions, the last one first.
    fn set_modes<S: Stream + Drop>(
        &mut self,
        rt: &HostRuntime,
        client: &mut Client<S>,
    ) -> Result<(), Failure> {
        for dir in self.made.iter().rev() {
            let set = change_mode(rt, client, dir.path.as_str(), dir.mode);
            self.outcome.note(set)?;
        }
        Ok(())
    }
}

// Copies the file of this name of a directory. A link or a device is reported.
fn put_file<S: Stream + Drop>(
    rt: &HostRuntime,
    client: &mut Client<S>,
    dir: &Dir,
    name: &str,
    paths: &Paths,
    metadata: &Metadata,
) -> Result<(), Failure> {
    let local = paths.local.as_str();
    if !metadata.is_file() {
        return Err(left_out(rt, local, metadata));
    }
    let file = finish_local(rt, local, dir.open_file(rt, name))?;
    let bytes = finish_local(rt, local, bytes_of(rt, file))?;
    put_bytes(rt, client, paths.path.as_str(), metadata, bytes.as_slice())
}

// Reports a link or a device, which is left out.
fn left_out(rt: &HostRuntime, local: &str, metadata: &Metadata) -> Failure {
    let what = if metadata.is_symlink() {
        "left out: a link"
    } else {
        "left out: a device"
    };
    report_about(rt, local, &what, Failure::Local)
}

// The bytes of an open file.
fn bytes_of(rt: &HostRuntime, file: File) -> io::Result<Vec<u8>> {
    let mut file = file;
    let mut bytes = Vec::new(rt.alloc());
    file.read_to_end(&mut bytes)?;
    Ok(bytes)
}

// Makes a directory of the server, unless it is there. Returns whether its permissions are to be set.
fn make_dir<S: Stream + Drop>(
    rt: &HostRuntime,
    client: &mut Client<S>,
    path: &str,
    mode: u32,
) -> Result<bool, Failure> {
    match found(rt, client, path)? {
        Some(entry) if entry.is_dir() => return Ok(false),
        Some(_) => return Err(report_about(rt, path, &"not a directory", Failure::Refused)),
        None => {}
    }
    match try_make_dir(rt, client, path, mode | OWNER_ALL) {
        Ok(()) => Ok(true),
        Err(error) => Err(error.report(rt, path)),
    }
}
