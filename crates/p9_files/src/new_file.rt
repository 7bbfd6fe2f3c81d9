//! A file that takes the place of another only once all of it is written.

ghost use Rattle.std.specs.Prelude.{◌≡◌, IfOk};
ghost use Rattle.std.specs.Path.{path_buf_bytes, path_with_file_name};

use std::alloc::{AllocError, Allocator};
use std::fs::{Files, OpenFile, OpenOptions, Permissions, remove_file, rename};
use std::io::{self, Error, ErrorKind, Write};
use std::os::unix::fs::{OpenOptionsExt, PermissionsExt};
use std::path::{Path, PathBuf};

/// The mode of a new file, until it gets another: only its owner may read and write it.
pub const OUTPUT_MODE: u32 = 0o600;

// How many names beside the target are tried.
const TRIES: u64 = 10_000;

/// A file that is written beside its target, under a name of its own. [`NewFile::finish`] puts it in
/// the target's place, and [`NewFile::discard`] removes it: one of the two has to be called.
pub struct NewFile<F, A: Allocator> {
    file: F,
    place: Option<Place<A>>,
}

// Where a file is written, and where it belongs.
#[derive(Drop)]
struct Place<A: Allocator> {
    path: PathBuf<A>,
    target: PathBuf<A>,
}

impl<F: Write + OpenFile + Drop, A: Allocator + Clone> NewFile<F, A> {
    /// Begins the file of a path. The target may be missing or a file, and stays as it is for now. What
    /// is there already and no file, as a terminal or a pipe, is written as it is.
    ///
    /// # Errors
    ///
    /// That of the system, as where the directory is missing or may not be written. One of words, where
    /// the target is a directory, or a link to a directory, to a file, or to nothing.
    pub fn create<R: Files<File = F>>(
        files: &R,
        alloc: A,
        target: &str,
    ) -> io::Result<NewFile<F, A>> {
        if is_replaced(files, target)? {
            return new_beside(files, alloc, target);
        }
        let file = OpenOptions::new().write(true).open(files, target)?;
        Ok(NewFile { file, place: None })
    }

    /// Writes bytes after those that are written. Where it fails, some of them may be written.
    pub fn write_all(&mut self, bytes: &[u8]) -> io::Result<()> {
        self.file.write_all(bytes)
    }

    /// Gives the file its mode, and puts it in the place of its target: until then that is as it was.
    /// Where anything fails, the new file is removed and the target is as it was.
    pub fn finish<R: Files<File = F>>(self, files: &R, mode: u32) -> io::Result<()> {
        let NewFile { mut file, place } = self;
        let Some(place) = place else {
            return file.flush();
        };
        match put(files, &mut file, &place, mode) {
            Ok(()) => Ok(()),
            Err(error) => {
                let _ = remove_file(files, &place.path);
                Err(error)
            }
        }
    }

    /// Removes the file. Its target is as it was.
    pub fn discard<R: Files<File = F>>(self, files: &R) -> io::Result<()> {
        let NewFile { file: _, place } = self;
        match place {
            Some(place) => remove_file(files, &place.path),
            None => Ok(()),
        }
    }
}

// Gives a file its mode, and puts it in its place once it is on the disk.
fn put<R: Files, A: Allocator>(
    files: &R,
    file: &mut R::File,
    place: &Place<A>,
    mode: u32,
) -> io::Result<()> {
    file.flush()?;
    file.set_permissions(Permissions::from_mode(mode))?;
    file.sync_all()?;
    rename(files, &place.path, &place.target)
}

// Whether a target is replaced, and not written as it is.
fn is_replaced<R: Files>(files: &R, target: &str) -> io::Result<bool> {
    let seen = match files.symlink_metadata(target) {
        Ok(seen) => seen,
        Err(error) if error.kind() == ErrorKind::NotFound => return Ok(true),
        Err(error) => return Err(error),
    };
    if seen.is_symlink() {
        return match files.metadata(target) {
            Ok(led) if !led.is_file() && !led.is_dir() => Ok(false),
            _ => Err(Error::other("a link")),
        };
    }
    if seen.is_dir() {
        return Err(Error::other("a directory"));
    }
    Ok(seen.is_file())
}

// Creates a file beside a target, under the first of some names that is free.
fn new_beside<R: Files, A: Allocator + Clone>(
    files: &R,
    alloc: A,
    target: &str,
) -> io::Result<NewFile<R::File, A>> {
    for number in 0..TRIES {
        if let Some(made) = new_of_number(files, alloc.clone()?, target, number)? {
            return Ok(made);
        }
    }
    Err(Error::from(ErrorKind::AlreadyExists))
}

// Creates a file beside a target, under the name of this number, if that is free.
fn new_of_number<R: Files, A: Allocator + Clone>(
    files: &R,
    alloc: A,
    target: &str,
    number: u64,
) -> io::Result<Option<NewFile<R::File, A>>> {
    let path = path_of_number(alloc.clone()?, target, number)?;
    match create_private(files, &path) {
        Ok(file) => Ok(Some(placed(files, alloc, file, path, target)?)),
        Err(error) if error.kind() == ErrorKind::AlreadyExists => Ok(None),
        Err(error) => Err(error),
    }
}

// The path beside a target that has the name of this number.
fn path_of_number<A: Allocator + Clone>(
    alloc: A,
    target: &str,
    number: u64,
) -> Result<PathBuf<A>, AllocError> {
    let name = format!(in alloc.clone()?; ".p9-{number}.new")?;
    beside(alloc, target, name.as_str())
}

// A file that was created beside its target. Where memory for that path lacks, the file is removed.
fn placed<R: Files, A: Allocator>(
    files: &R,
    alloc: A,
    file: R::File,
    path: PathBuf<A>,
    target: &str,
) -> io::Result<NewFile<R::File, A>> {
    match PathBuf::from_str(alloc, target) {
        Ok(target) => {
            let place = Some(Place { path, target });
            Ok(NewFile { file, place })
        }
        Err(error) => {
            let _ = remove_file(files, &path);
            Err(Error::from(error))
        }
    }
}

// Creates a file that only its owner may read and write. What is there already is refused, also a
// link.
fn create_private<R: Files, A: Allocator>(files: &R, path: &PathBuf<A>) -> io::Result<R::File> {
    let mut options = OpenOptions::new();
    options.write(true).create_new(true).mode(OUTPUT_MODE);
    options.open(files, path)
}

// The path of a name in the directory of a target.
fn beside<A: Allocator>(alloc: A, target: &str, name: &str) -> Result<PathBuf<A>, AllocError>
    ensures { IfOk result (λ path. path_buf_bytes path ≡ path_with_file_name target.now name.now) }
{
    Path::new(target).with_file_name(alloc, name)
}
