//! Where the bytes of a file go that is copied from a server.

use p9_files::NewFile;
use std::alloc::Global;
use std::fs::File;
use std::io::{self, Error, ErrorKind, Write};

/// A file of the system that is written, with how many more bytes it may get, whether there were more,
/// and a copy of its bytes, where it is copied.
pub struct Sink {
    pub file: NewFile<File, Global>,
    pub left: usize,
    pub is_exceeded: bool,
    pub is_copied: bool,
    pub copy: Vec<u8>,
}

impl Write for Sink {
    fn write(&mut self, bytes: &[u8]) -> io::Result<usize> {
        let Some(left) = self.left.checked_sub(bytes.len()) else {
            self.is_exceeded = true;
            return Err(Error::from(ErrorKind::QuotaExceeded));
        };
        self.file.write_all(bytes)?;
        if self.is_copied {
            self.copy.extend_from_slice(bytes)?;
        }
        self.left = left;
        Ok(bytes.len())
    }

    fn flush(&mut self) -> io::Result<()> {
        Ok(())
    }
}
