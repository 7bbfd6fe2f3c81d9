//! The input of a row or a part, and how a command is to end over it.

use std::alloc::{AllocError, Global};

/// An input, and how a command is to end over it.
#[derive(Drop)]
pub struct Body {
    pub input: Vec<u8>,
    pub wanted: Ending,
}

/// How a command ends: what it prints, what it writes to standard error, and its exit status.
#[derive(Drop)]
pub struct Ending {
    pub out: Vec<u8>,
    pub err: Vec<u8>,
    pub status: u8,
}

impl Body {
    /// The empty input, over which nothing is printed.
    pub fn new(alloc: Global) -> Body {
        Body {
            input: Vec::new(alloc),
            wanted: Ending::new(alloc),
        }
    }

    /// Adds another body after this one. A status that isn't 0 becomes that of this one.
    pub fn add(&mut self, other: &Body) -> Result<(), AllocError> {
        self.input.extend_from_slice(other.input.as_slice())?;
        self.wanted
            .out
            .extend_from_slice(other.wanted.out.as_slice())?;
        self.wanted
            .err
            .extend_from_slice(other.wanted.err.as_slice())?;
        if other.wanted.status != 0 {
            self.wanted.status = other.wanted.status;
        }
        Ok(())
    }
}

impl Ending {
    /// Status 0, where nothing is printed.
    pub fn new(alloc: Global) -> Ending {
        Ending {
            out: Vec::new(alloc),
            err: Vec::new(alloc),
            status: 0,
        }
    }
}
