//! What is wrong with a row file.

use hex::FromHexError;
use std::alloc::{AllocError, AllocFailed};

/// A line of a row file that can't be read. Lines count from 1.
#[derive(Clone, Copy)]
pub struct Fault {
    pub line: usize,
    pub why: LineFault,
}

/// Why a line can't be read.
#[derive(Clone, Copy)]
pub enum LineFault {
    /// No head is above the line, and it is neither blank nor a comment.
    Outside,
    /// A head has no name.
    NoName,
    /// A part has the name already.
    PartTwice,
    /// No part above has the name.
    NoSuchPart,
    /// The status is no number below 256.
    BadStatus,
    /// The hexadecimal digits write no bytes.
    BadHex,
    /// An allocation failed.
    NoMemory,
}

impl LineFault {
    /// The fault in words.
    pub fn text(self) -> &'static str {
        match self {
            LineFault::Outside => "the line is in no row and no part",
            LineFault::NoName => "the head has no name",
            LineFault::PartTwice => "the part is there already",
            LineFault::NoSuchPart => "no part above has this name",
            LineFault::BadStatus => "the status is no number below 256",
            LineFault::BadHex => "the hexadecimal digits write no bytes",
            LineFault::NoMemory => "out of memory",
        }
    }
}

impl From<AllocError> for LineFault {
    fn from(_error: AllocError) -> LineFault {
        LineFault::NoMemory
    }
}

impl<T: Drop> From<AllocFailed<T>> for LineFault {
    fn from(_error: AllocFailed<T>) -> LineFault {
        LineFault::NoMemory
    }
}

impl From<FromHexError> for LineFault {
    fn from(error: FromHexError) -> LineFault {
        match error {
            FromHexError::OutOfMemory => LineFault::NoMemory,
            _ => LineFault::BadHex,
        }
    }
}
