//! The files of a folder.

use p9_files::Dir;
use std::alloc::AllocError;
use std::fs::{self, File};
use std::io::{self, ErrorKind, Read};

/// The path of a file in a folder.
pub(crate) fn place_in(rt: &HostRuntime, folder: &str, name: &str) -> Result<String, AllocError> {
    format!(in rt.alloc(); "{folder}/{name}")
}

/// What a file in a folder has, if both are there. Only a regular file is read: a pipe is not waited for,
/// and a link in the file's place is not followed.
pub(crate) fn read_in(rt: &HostRuntime, folder: &str, name: &str) -> io::Result<Option<Vec<u8>>> {
    match open_in(rt, folder, name) {
        Ok(mut file) => {
            let mut bytes = Vec::with_capacity(rt.alloc(), file.metadata()?.len() as usize)?;
            file.read_to_end(&mut bytes)?;
            Ok(Some(bytes))
        }
        Err(error) if error.kind() == ErrorKind::NotFound => Ok(None),
        Err(error) => Err(error),
    }
}

// Opens a regular file in a folder, whose own path may have links.
fn open_in(rt: &HostRuntime, folder: &str, name: &str) -> io::Result<File> {
    let folder = fs::canonicalize(rt, folder)?;
    Dir::open(folder.as_str())?.open_file(rt, name)
}
