//! Directories of the system, whose entries are opened without following a link.

ghost use Rattle.std.specs.Prelude.{IfOk, IsPermutation, IsSorted, IsTrue, reverse, ◌↔◌, ◌≡◌};
ghost use Rattle.std.specs.Fs.{IsFile, file_type};

use crate::guard::{is_at_rest, may_others_write};
use libc::AT_FDCWD;
use os::FromRawFd;
use p9_base::Name;
use std::alloc::AllocError;
use std::fs::{self, DirEntry, File, Metadata};
use std::io::{self, Error, ErrorKind};
use std::os::fd::{AsRawFd, OwnedFd, RawFd};
use std::os::unix::fs::MetadataExt;
use std::time::{SystemTime, UNIX_EPOCH};

/// An open directory. Its entries are looked up in it and not by a path from the root, so that they
/// are its own whatever becomes of the directories above. It needs the file system `/proc`.
#[derive(Drop)]
pub struct Dir {
    fd: OwnedFd,
}

/// The names of a directory.
#[derive(Drop)]
pub struct Listing {
    /// The names that are UTF-8, the greatest first.
    pub names: Vec<String>,
    /// How many names are not UTF-8.
    pub others: u64,
}

impl Dir {
    /// Opens the directory of a path. Slashes at its end are passed over. A link at its end is not
    /// followed, those before it are.
    ///
    /// # Errors
    ///
    /// That of the system, where there is no such directory, the path ends in a link or a file, or the
    /// directory may not be read.
    pub fn open(path: &str) -> io::Result<Dir> {
        let trimmed = path.trim_end_matches('/');
        if trimmed.is_empty() && !path.is_empty() {
            return open_at(AT_FDCWD, "/");
        }
        open_at(AT_FDCWD, trimmed)
    }

    /// Opens the directory of a name in this one, without following a link.
    ///
    /// # Errors
    ///
    /// That of the system, where there is no such directory, the name is that of a link or a file, or
    /// the directory may not be read. [`ErrorKind::InvalidFilename`] where no entry has such a name.
    pub fn open_dir(&self, name: &str) -> io::Result<Dir> {
        check_name(name)?;
        open_at(self.fd.as_raw_fd(), name)
    }

    /// What the system knows of this directory.
    pub fn metadata(&self, rt: &HostRuntime) -> io::Result<Metadata> {
        fs::metadata(rt, self.path(rt)?.as_str())
    }

    /// What the system knows of the entry of a name, which may be a link.
    ///
    /// # Errors
    ///
    /// That of the system, as where there is no such entry, and [`ErrorKind::InvalidFilename`] where no
    /// entry has such a name.
    pub fn look(&self, rt: &HostRuntime, name: &str) -> io::Result<Metadata> {
        check_name(name)?;
        fs::symlink_metadata(rt, self.path_of(rt, name)?.as_str())
    }

    /// Opens the file of a name, to read it. Only a file that is in this directory itself is returned:
    /// what another process puts in its place meanwhile, as a link, is refused.
    ///
    /// Where such an exchange is likely, since somebody else than this user and root may change the
    /// directory or since it changed within the last ten seconds, the file is opened to be written
    /// too, where that is allowed. It is not written. A pipe that comes in the file's place then has
    /// a writer, so that nothing is waited for.
    ///
    /// # Errors
    ///
    /// That of the system. [`ErrorKind::InvalidFilename`] where no entry has such a name. One of words
    /// where the name is that of something else than a file, where the file was exchanged meanwhile,
    /// or where root could only open it to read and somebody else may exchange it.
    pub fn open_file(&self, rt: &HostRuntime, name: &str) -> io::Result<File> {
        check_name(name)?;
        let path = self.path_of(rt, name)?;
        if !fs::symlink_metadata(rt, path.as_str())?.is_file() {
            return Err(Error::other("not a file"));
        }
        let file = self.open_guarded(rt, path.as_str())?;
        let opened = file.metadata()?;
        let seen = fs::symlink_metadata(rt, path.as_str())?;
        if !is_same_file(&opened, &seen) {
            return Err(exchanged());
        }
        Ok(file)
    }

    // Opens a path in this directory to read it, so that a pipe there isn't waited for.
    fn open_guarded(&self, rt: &HostRuntime, path: &str) -> io::Result<File> {
        let metadata = self.metadata(rt)?;
        let user = libc::geteuid();
        let is_open = may_others_write(user, metadata.uid(), metadata.mode());
        if !is_open && is_at_rest(seconds_of(metadata.ctime()), seconds_now(rt)?) {
            return File::open(rt, path);
        }
        match File::options().read(true).write(true).open(rt, path) {
            Ok(file) => Ok(file),
            Err(error) if may_read_only(error.kind(), is_open && user == 0) => File::open(rt, path),
            Err(error) => Err(error),
        }
    }

    /// The names of the entries.
    pub fn names(&self, rt: &HostRuntime) -> io::Result<Listing> {
        let path = self.path(rt)?;
        let mut names = Vec::new(rt.alloc());
        let mut others: u64 = 0;
        for entry in fs::read_dir(rt, path.as_str())? {
            match name_of(rt, entry)? {
                Some(name) => names.push(name)?,
                None => others = others.saturating_add(1),
            }
        }
        let names = greatest_first(names)?;
        Ok(Listing { names, others })
    }

    // A path of the open directory.
    fn path(&self, rt: &HostRuntime) -> io::Result<String> {
        let fd = self.fd.as_raw_fd();
        Ok(format!(in rt.alloc(); "/proc/self/fd/{fd}")?)
    }

    // A path of an entry of the open directory.
    fn path_of(&self, rt: &HostRuntime, name: &str) -> io::Result<String> {
        let fd = self.fd.as_raw_fd();
        Ok(format!(in rt.alloc(); "/proc/self/fd/{fd}/{name}")?)
    }
}

// The name of an entry, if it is a text.
fn name_of(
    rt: &HostRuntime,
    entry: io::Result<DirEntry<HostRuntime>>,
) -> io::Result<Option<String>> {
    match entry {
        Ok(entry) => Ok(Some(String::from_str(rt.alloc(), entry.file_name())?)),
        Err(error) if error.kind() == ErrorKind::InvalidFilename => Ok(None),
        Err(error) => Err(error),
    }
}

// Refuses what isn't the name of an entry, as a path.
fn check_name(name: &str) -> io::Result<()> {
    if Name::new(name).is_none() {
        return Err(Error::from(ErrorKind::InvalidFilename));
    }
    Ok(())
}

// Opens the directory of a path from an open directory on.
fn open_at(dir: RawFd, path: &str) -> io::Result<Dir> {
    let fd = os::open_dir_at(dir, path.as_bytes());
    if fd < 0 {
        return Err(Error::from_raw_os_error(os::errno()));
    }
    let fd = unsafe { OwnedFd::from_raw_fd(fd) };
    Ok(Dir { fd })
}

// Whether both are of one file, and none of a link or a device.
fn is_same_file(opened: &Metadata, seen: &Metadata) -> bool
    ensures opened { IsTrue result → IsFile (file_type opened.now) }
    ensures seen { IsTrue result → IsFile (file_type seen.now) }
{
    opened.is_file() && seen.is_file() && opened.dev() == seen.dev() && opened.ino() == seen.ino()
}

// The error of a file in whose place something else is.
fn exchanged() -> Error {
    Error::other("it was exchanged while it was opened")
}

// Whether a file that can't be opened to be written may be opened to read. A file system that can't be
// written has no exchanges.
fn may_read_only(kind: ErrorKind, is_root_exposed: bool) -> bool {
    match kind {
        ErrorKind::ReadOnlyFilesystem => true,
        ErrorKind::NotFound | ErrorKind::FilesystemLoop | ErrorKind::IsADirectory => false,
        _ => !is_root_exposed,
    }
}

// A time of the system in whole seconds, which are not before 1970.
fn seconds_of(seconds: i64) -> u64 {
    u64::try_from(seconds).unwrap_or(0)
}

// The seconds since 1970.
fn seconds_now(rt: &HostRuntime) -> io::Result<u64> {
    let now = SystemTime::now(rt)?;
    Ok(match now.duration_since(UNIX_EPOCH) {
        Ok(since) => since.as_secs(),
        Err(_) => 0,
    })
}

// The items in order, the greatest first.
fn greatest_first<T: Ord + Drop>(mut items: Vec<T>) -> Result<Vec<T>, AllocError>
    ensures same { IfOk result (λ sorted. IsPermutation items.items sorted.items) }
    ensures sorted { IfOk result (λ sorted. IsSorted T.cmp (reverse sorted.items)) }
{
    items.sort()?;
    items.reverse();
    Ok(items)
}
