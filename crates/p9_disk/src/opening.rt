//! A device is opened.

ghost use Rattle.std.specs.Prelude.{◌≡◌, [], ◌∷◌, IfOk, List, ℕ};
ghost use Rattle.p9_disk.specs.Disk.{events_of};
ghost use Rattle.p9_disk.specs.Events.{opened};

use crate::file_device::{FileDevice, Parts};
use std::alloc::{AllocError, Global};
use std::fs::{self, File, OpenOptions};
use std::io::{Error, ErrorKind, Read, Result};
use std::os::fd::AsRawFd;
use std::os::unix::fs::{MetadataExt, OpenOptionsExt};
use std::result;

impl FileDevice {
    /// Opens the file of this name in a folder, and makes it with mode 0600 where it is missing. It locks
    /// nothing.
    ///
    /// The file and the folder are synced before the file is read, so that all that is read is on the
    /// disk.
    ///
    /// # Errors
    ///
    /// That of the system. [`ErrorKind::InvalidFilename`] where the name is empty or has a slash. One of
    /// words where the name is that of a link, a folder or a device, or the file has a second name.
    pub fn open(rt: &HostRuntime, folder: &str, name: &str) -> Result<FileDevice>
        ensures { IfOk result (λ device. (bytes : List ℕ) × (events_of device ≡ opened bytes ∷ [])) }
    {
        if name.is_empty() || name.contains('/') {
            return Err(Error::from(ErrorKind::InvalidFilename));
        }
        let mut parts = parts_of(rt, folder, name)?;
        let bytes = read_settled(rt, &mut parts)?;
        Ok(FileDevice::new(*rt, parts, bytes))
    }
}

/// Opens a folder and the file of this name in it, which is made where it is missing.
fn parts_of(rt: &HostRuntime, folder: &str, name: &str) -> Result<Parts> {
    let folder = fs::canonicalize(rt, folder)?;
    let (path, draft_path) = paths_of(rt.alloc(), folder.as_str(), name)?;
    let (folder, file) = open_both(rt, folder.as_str(), path.as_str())?;
    Ok(Parts {
        folder,
        path,
        draft_path,
        file,
    })
}

/// The path of the file of this name in a folder, and that of its draft.
fn paths_of(
    alloc: Global,
    folder: &str,
    name: &str,
) -> result::Result<(String, String), AllocError> {
    let path = format!(in alloc; "{folder}/{name}")?;
    let draft_path = format!(in alloc; "{}.new", path.as_str())?;
    Ok((path, draft_path))
}

/// Opens a folder, and a file in it, which is made where it is missing.
fn open_both(rt: &HostRuntime, folder: &str, path: &str) -> Result<(File, File)> {
    let folder = off_standard(File::open(rt, folder)?)?;
    let file = open_or_make(rt, path)?;
    Ok((folder, file))
}

/// Settles a file and its folder, and then reads the file.
fn read_settled(rt: &HostRuntime, parts: &mut Parts) -> Result<Vec<u8>> {
    settle(&parts.file, &parts.folder)?;
    read_whole(rt, &mut parts.file)
}

/// The bytes of a file, from where it stands on.
fn read_whole(rt: &HostRuntime, file: &mut File) -> Result<Vec<u8>> {
    let mut bytes = Vec::with_capacity(rt.alloc(), file.metadata()?.len() as usize)?;
    file.read_to_end(&mut bytes)?;
    Ok(bytes)
}

/// Opens a regular file with one name, or makes it. A link at the name isn't followed to make a file, and one
/// that leads to a file is refused.
fn open_or_make(rt: &HostRuntime, path: &str) -> Result<File> {
    match make(rt, path) {
        Err(error) if error.kind() == ErrorKind::AlreadyExists => open_present(rt, path),
        made => made,
    }
}

/// Opens a regular file that is there, with one name. A link that leads to a file is refused.
fn open_present(rt: &HostRuntime, path: &str) -> Result<File> {
    if !fs::symlink_metadata(rt, path)?.is_file() {
        return Err(Error::other("not a regular file"));
    }
    let file = off_standard(OpenOptions::new().read(true).write(true).open(rt, path)?)?;
    check_opened(rt, path, &file)?;
    Ok(file)
}

/// Checks that an open file still is the regular one at its path, and that it has no other name.
fn check_opened(rt: &HostRuntime, path: &str, file: &File) -> Result<()> {
    let found = file.metadata()?;
    let named = fs::symlink_metadata(rt, path)?;
    if !found.is_file() || found.dev() != named.dev() || found.ino() != named.ino() {
        return Err(Error::other("it was exchanged while it was opened"));
    }
    if found.nlink() != 1 {
        return Err(Error::other("the file has another name too"));
    }
    Ok(())
}

/// Makes a file that isn't there, with mode 0600. It fails where something has the name, be it a link.
pub(crate) fn make(rt: &HostRuntime, path: &str) -> Result<File> {
    let file = OpenOptions::new()
        .read(true)
        .write(true)
        .create_new(true)
        .mode(0o600)
        .open(rt, path)?;
    off_standard(file)
}

// Moves a file off the descriptors of the standard streams, so that what is meant for one of these that
// was closed doesn't land in it.
fn off_standard(file: File) -> Result<File> {
    if file.as_raw_fd() <= 2 {
        return file.try_clone();
    }
    Ok(file)
}

/// Syncs a file and its folder, and has the system forget what it holds of the file in memory, which a
/// sync that failed in an earlier process may have left other than it is on the disk.
fn settle(file: &File, folder: &File) -> Result<()> {
    file.sync_all()?;
    let advised = libc::posix_fadvise(file.as_raw_fd(), 0, 0, libc::POSIX_FADV_DONTNEED);
    if advised != 0 {
        return Err(Error::from_raw_os_error(advised));
    }
    folder.sync_all()
}
