//! A folder that a process has, and which export it belongs to.

use crate::reading::{place_in, read_in};
use p9_files::{NewFile, OUTPUT_MODE};
use p9_shell::{Failure, Program};
use p9_shown::AsShown;
use std::alloc::AllocError;
use std::fs::{self, DirBuilder, File, OpenOptions, TryLockError};
use std::io::{self, Error, ErrorKind};
use std::os::unix::fs::{DirBuilderExt, OpenOptionsExt};

// What is hidden from clients is kept there, so nobody else may read it.
const FOLDER_MODE: u32 = 0o700;

// The file that is locked.
const LOCK: &str = "lock";

// Why something else in its place is refused.
const NO_LOCK: &str = "its lock is not a regular file";

/// The file with the export.
pub const EXPORT: &str = "export";

/// The file with the changes.
pub const JOURNAL: &str = "journal";

/// A folder that no other process has.
#[derive(Drop)]
pub struct Folder {
    program: Program,
    path: String,
    // It is locked while it is open.
    _lock: File,
}

impl Folder {
    /// Takes a folder, which is made where it is missing. That another process has it is reported.
    pub fn take(rt: &HostRuntime, program: Program, path: &str) -> Result<Folder, Failure> {
        program.had(rt, path, make(rt, path))?;
        match program.had(rt, path, lock(rt, path))? {
            Some(lock) => Ok(Folder {
                program,
                path: String::from_str(rt.alloc(), path)?,
                _lock: lock,
            }),
            None => {
                let why = "another process has this folder";
                Err(program.refuse(rt, path, &why, Failure::Refused))
            }
        }
    }

    /// Its path.
    pub fn path(&self) -> &str {
        self.path.as_str()
    }

    /// The path of a file in it.
    pub fn place(&self, rt: &HostRuntime, name: &str) -> Result<String, AllocError> {
        place_in(rt, self.path(), name)
    }

    /// Makes this export, which is in a file, its own, where it has none. Another one is refused.
    pub fn belong_to(&self, rt: &HostRuntime, file: &str, export: &[u8]) -> Result<(), Failure> {
        let place = self.place(rt, EXPORT)?;
        let read = read_in(rt, self.path(), EXPORT);
        match self.program.had(rt, place.as_str(), read)? {
            None => self.put(rt, EXPORT, export),
            Some(own) if own.as_slice() == export => Ok(()),
            Some(_) => Err(self.refuse_other(rt, place.as_str(), file)),
        }
    }

    // Reports that it belongs to another export.
    fn refuse_other(&self, rt: &HostRuntime, own: &str, file: &str) -> Failure {
        match format!(in rt.alloc();
            "the folder keeps the changes of another export: {}",
            AsShown(own)
        ) {
            Ok(why) => self
                .program
                .refuse(rt, file, &why.as_str(), Failure::Refused),
            Err(AllocError) => Failure::NoMemory,
        }
    }

    /// Puts bytes in the place of a file in it, whole or not at all, and on the disk. Something else there
    /// than a regular file, as a pipe or a link, is refused. What fails is reported.
    pub fn put(&self, rt: &HostRuntime, name: &str, bytes: &[u8]) -> Result<(), Failure> {
        let place = self.place(rt, name)?;
        let put = put_at(rt, self.path(), place.as_str(), bytes);
        self.program.had(rt, place.as_str(), put)
    }

    /// Removes a file in it.
    pub fn remove(&self, rt: &HostRuntime, name: &str) -> io::Result<()> {
        let place = self.place(rt, name)?;
        fs::remove_file(rt, place.as_str())?;
        File::open(rt, self.path())?.sync_all()
    }
}

/// Whether the folder of a path belongs to this export. One that can't be read does not.
pub fn belongs_to(rt: &HostRuntime, path: &str, export: &[u8]) -> bool {
    match read_in(rt, path, EXPORT) {
        Ok(Some(own)) => own.as_slice() == export,
        Ok(None) | Err(_) => false,
    }
}

// Puts bytes in the place of a file in a folder.
fn put_at(rt: &HostRuntime, folder: &str, place: &str, bytes: &[u8]) -> io::Result<()> {
    check_place(rt, place, "not a regular file")?;
    let mut file = NewFile::create(rt, rt.alloc(), place)?;
    match file.write_all(bytes) {
        Ok(()) => file.finish(rt, OUTPUT_MODE)?,
        Err(error) => {
            file.discard(rt)?;
            return Err(error);
        }
    }
    File::open(rt, folder)?.sync_all()
}

// Refuses in these words something else in the place of a file than a regular one. A link there is not
// followed, and a pipe is not waited for. The place may be free.
fn check_place(rt: &HostRuntime, place: &str, why: &str) -> io::Result<()> {
    match fs::symlink_metadata(rt, place) {
        Ok(seen) if seen.is_file() => Ok(()),
        Ok(_) => Err(Error::other(why)),
        Err(error) if error.kind() == ErrorKind::NotFound => Ok(()),
        Err(error) => Err(error),
    }
}

// Makes a folder, unless it is there.
fn make(rt: &HostRuntime, path: &str) -> io::Result<()> {
    let mut builder = DirBuilder::new();
    builder.mode(FOLDER_MODE);
    match builder.create(rt, path) {
        Err(error) if error.kind() == ErrorKind::AlreadyExists => Ok(()),
        made => made,
    }
}

// Locks a folder, unless another process has it.
fn lock(rt: &HostRuntime, path: &str) -> io::Result<Option<File>> {
    let place = place_in(rt, path, LOCK)?;
    let file = open_lock(rt, place.as_str())?;
    match file.try_lock() {
        Ok(()) => Ok(Some(file)),
        Err(TryLockError::WouldBlock) => Ok(None),
        Err(TryLockError::Error(error)) => Err(error),
    }
}

// Opens the file that is locked, which is made where it is missing. A link or a pipe in its place is
// refused. A pipe that comes there meanwhile is not waited for, since it is opened to read and write.
fn open_lock(rt: &HostRuntime, place: &str) -> io::Result<File> {
    check_place(rt, place, NO_LOCK)?;
    let mut options = OpenOptions::new();
    options
        .read(true)
        .write(true)
        .create(true)
        .mode(OUTPUT_MODE);
    let file = options.open(rt, place)?;
    if !file.metadata()?.is_file() {
        return Err(Error::other(NO_LOCK));
    }
    Ok(file)
}
