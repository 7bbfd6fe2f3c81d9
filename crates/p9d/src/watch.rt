//! The requests that a client sends, as far as they are told of.

ghost use Rattle.std.specs.Prelude.{◌≤◌, length};

use byteorder::{ByteOrder, LittleEndian};
use p9_wire::{HEADER, MSIZE_MAX};
use std::alloc::{AllocError, Global};
use std::str::from_utf8;

// The most bytes of a frame that are kept.
const FRONT_MAX: usize = 1_024;

// How many bytes say how long a frame is.
const SIZE: usize = 4;

// How many bytes the two fids of a Tattach have.
const FIDS: usize = 8;

// The types of the requests that are told of.
const TVERSION: u8 = 100;

const TATTACH: u8 = 104;

/// A request that is told of.
#[derive(Drop)]
pub(crate) enum Seen {
    /// A Tversion.
    Version,
    /// A Tattach.
    Attach(Attach),
}

/// A Tattach: its tag, its user's name and its attach name.
#[derive(Drop)]
pub(crate) struct Attach {
    pub tag: u16,
    pub user: String,
    pub name: String,
}

/// The frames of the bytes that a client sends, one after another. The front of the last one is kept,
/// where it may be told of.
#[derive(Drop)]
pub(crate) struct Watch {
    front: Vec<u8>,
    // How many bytes of the frame are still to come, once its size is there.
    left: usize,
    // Whether a size came that no frame has.
    is_lost: bool,
}

/// What was taken of bytes: how many, and whether a frame ends with them.
#[derive(Clone, Copy)]
pub(crate) struct Taken {
    pub count: usize,
    pub is_whole: bool,
}

impl Watch {
    /// Before the first frame.
    pub fn new(alloc: Global) -> Watch {
        Watch {
            front: Vec::new(alloc),
            left: 0,
            is_lost: false,
        }
    }

    /// Takes bytes up to the end of a frame, or up to the end of its size. Whole frames that aren't told
    /// of are taken together.
    pub fn take(&mut self, bytes: &[u8]) -> Result<Taken, AllocError> {
        if self.is_lost {
            return Ok(Taken {
                count: bytes.len(),
                is_whole: false,
            });
        }
        if self.left == 0 {
            return self.take_front(bytes);
        }
        let left = self.left;
        let count = left.min(bytes.len());
        if self.keeps(bytes) {
            self.keep(&bytes[..count])?;
        }
        self.left = left - count;
        Ok(Taken {
            count,
            is_whole: left == count,
        })
    }

    // Whether these bytes of a frame are kept: those of a Tversion or a Tattach. Where the size of a
    // frame alone is kept, its type comes next.
    fn keeps(&self, bytes: &[u8]) -> bool {
        self.front.len() > SIZE || matches!(bytes.first(), Some(&TVERSION | &TATTACH))
    }

    // Takes whole frames that aren't told of, or else bytes of a frame's size.
    fn take_front(&mut self, bytes: &[u8]) -> Result<Taken, AllocError> {
        if self.front.len() >= SIZE {
            self.front.clear();
        }
        if self.front.is_empty() {
            let count = len_of_others(bytes);
            if count > 0 {
                return Ok(Taken {
                    count,
                    is_whole: false,
                });
            }
        }
        self.take_size(bytes)
    }

    // Takes bytes of a frame's size.
    fn take_size(&mut self, bytes: &[u8]) -> Result<Taken, AllocError> {
        let count = SIZE.saturating_sub(self.front.len()).min(bytes.len());
        self.keep(&bytes[..count])?;
        if self.front.len() == SIZE {
            let size = LittleEndian::read_u32(self.front.as_slice()) as usize;
            self.is_lost = size < HEADER || size > MSIZE_MAX as usize;
            self.left = size.saturating_sub(SIZE);
        }
        Ok(Taken {
            count,
            is_whole: false,
        })
    }

    // Keeps bytes, as far as there is room.
    fn keep(&mut self, bytes: &[u8]) -> Result<(), AllocError> {
        let room = FRONT_MAX.saturating_sub(self.front.len());
        self.front
            .extend_from_slice(&bytes[..room.min(bytes.len())])
    }

    /// The request that the last frame is, where it is told of. A Tattach whose names are very long is
    /// not.
    pub fn seen(&self, alloc: Global) -> Result<Option<Seen>, AllocError> {
        match self.front.get(SIZE) {
            Some(&TVERSION) => Ok(Some(Seen::Version)),
            Some(&TATTACH) => attach_in(alloc, self.front.as_slice()),
            _ => Ok(None),
        }
    }
}

// What a Tattach asks for, as far as it can be told of.
fn attach_in(alloc: Global, frame: &[u8]) -> Result<Option<Seen>, AllocError> {
    let Some((tag, user, name)) = names_in(frame) else {
        return Ok(None);
    };
    Ok(Some(Seen::Attach(Attach {
        tag,
        user: String::from_str(alloc, user)?,
        name: String::from_str(alloc, name)?,
    })))
}

// The tag of a Tattach, the user's name and the attach name. The two fids are before these.
fn names_in(frame: &[u8]) -> Option<(u16, &str, &str)> {
    let [_, _, _, _, _, low, high, fields @ ..] = frame else {
        return None;
    };
    let (user, rest) = take_text(fields.get(FIDS..)?)?;
    let (name, _) = take_text(rest)?;
    Some((u16::from_le_bytes([*low, *high]), user, name))
}

// The text at the front, and the bytes after it.
fn take_text(bytes: &[u8]) -> Option<(&str, &[u8])> {
    let [low, high, rest @ ..] = bytes else {
        return None;
    };
    let len = usize::from(u16::from_le_bytes([*low, *high]));
    let text = from_utf8(rest.get(..len)?).ok()?;
    Some((text, rest.get(len..)?))
}

// How many bytes the whole frames have that are at the front and aren't told of, up to one that is.
fn len_of_others(bytes: &[u8]) -> usize {
    let mut rest = bytes;
    for _ in 0..bytes.len() {
        match size_of_other(rest) {
            Some(size) => rest = rest.get(size..).unwrap_or(&[]),
            None => break,
        }
    }
    bytes.len().saturating_sub(rest.len())
}

// The size of the frame at the front, where all of it is there and it isn't told of.
fn size_of_other(bytes: &[u8]) -> Option<usize> {
    let [a, b, c, d, kind, ..] = bytes else {
        return None;
    };
    let size = u32::from_le_bytes([*a, *b, *c, *d]) as usize;
    let is_whole = HEADER <= size && size <= bytes.len().min(MSIZE_MAX as usize);
    (is_whole && *kind != TVERSION && *kind != TATTACH).then_some(size)
}
