//! A copy of what a stream took, for the test.

use std::alloc::Global;
use std::cell::RefCell;
use std::io;
use std::io::ErrorKind;

#[derive(Drop)]
pub struct Copied {
    bytes: RefCell<Vec<u8, Global>>,
}

impl Copied {
    /// Nothing was taken.
    pub fn new(alloc: Global) -> Copied {
        Copied {
            bytes: RefCell::new(Vec::new(alloc)),
        }
    }

    /// Takes bytes, or none.
    pub fn take(&self, bytes: &[u8]) -> io::Result<()> {
        let Ok(mut all) = self.bytes.try_borrow_mut() else {
            return Err(io::Error::from(ErrorKind::Other));
        };
        all.extend_from_slice(bytes)?;
        Ok(())
    }

    /// Whether these are all that were taken.
    pub fn has(&self, bytes: &[u8]) -> bool {
        match self.bytes.try_borrow() {
            Ok(all) => all.as_slice() == bytes,
            Err(_) => false,
        }
    }
}
