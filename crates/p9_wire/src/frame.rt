//! Frames on a stream.

ghost use Rattle.std.specs.Prelude.{◌≡◌};
ghost use Rattle.p9_wire.specs.Frame.{first_frame, is_frame, BeginsFrames};

use crate::constants::{HEADER, MSIZE_MAX};
use byteorder::{ByteOrder, LittleEndian};

/// What is at the front of a stream.
#[derive(Clone, Copy, Debug, PartialEq, Eq)]
pub enum Frame {
    /// Less than a whole frame: more bytes are needed.
    Need,
    /// A whole frame of so many bytes.
    Whole(usize),
    /// A size below 7 or above `MSIZE_MAX`: no frame begins so, and what follows isn't known.
    Broken,
}

/// What is at the front of these bytes, by the four bytes of its size alone: whether the frame
/// is a message is what [`crate::read_t`] and [`crate::read_r`] tell.
pub fn frame_of(bytes: &[u8]) -> Frame
    ensures front { result ≡ first_frame bytes.now }
    // The first case of the bytes' frames.
    ensures frames { BeginsFrames result bytes.now }
{
    if bytes.len() < 4 {
        return Frame::Need;
    }
    let size = LittleEndian::read_u32(bytes) as usize;
    if size < HEADER || size > MSIZE_MAX as usize {
        Frame::Broken
    } else if bytes.len() < size {
        Frame::Need
    } else {
        Frame::Whole(size)
    }
}

/// Whether the bytes are one whole frame: as many as their size says, from 7 to `MSIZE_MAX`.
/// Whatever else they are, such a frame gets a reply.
pub fn is_frame(bytes: &[u8]) -> bool
    ensures { result ≡ is_frame bytes.now }
{
    matches!(frame_of(bytes), Frame::Whole(size) if size == bytes.len())
}
