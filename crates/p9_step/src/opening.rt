//! What the mode of an open or a create asks for, as open(5).

ghost use Rattle.std.specs.Prelude.{◌≡◌};
ghost use Rattle.p9_step.specs.Opening.{is_plain_read, newly_opened, open_mode_of, opening_of};
ghost use Rattle.p9_step.specs.Opening.{wanted_by};

use p9_base::Rights;
use p9_fids::{OpenMode, Opened};

/// What the mode of an open or a create asks for.
#[derive(Clone, Copy, Debug, PartialEq, Eq)]
pub struct Opening {
    /// What the fid may be used for.
    pub mode: OpenMode,
    /// The file is cut to nothing.
    pub truncates: bool,
    /// The file is removed when the fid ends.
    pub remove_on_close: bool,
}

// The bit that asks for truncation.
const OTRUNC: u8 = 0x10;

// The bit that asks for remove-on-close.
const ORCLOSE: u8 = 0x40;

// Every bit but those of the four modes, truncation, close on exec (0x20), which means nothing
// here and is dropped, and remove-on-close.
const UNKNOWN: u8 = 0x8C;

impl Opening {
    /// What these bits ask for, or `None` where one of them means nothing.
    pub fn from_bits(bits: u8) -> Option<Opening>
        ensures { result ≡ opening_of bits }
    {
        if bits & UNKNOWN != 0 {
            return None;
        }
        Some(Opening {
            mode: open_mode_of(bits),
            truncates: bits & OTRUNC != 0,
            remove_on_close: bits & ORCLOSE != 0,
        })
    }

    /// Whether it asks to read, and for nothing else. A directory is opened so, or not at all.
    pub fn is_plain_read(self) -> bool
        ensures { result ≡ is_plain_read self }
    {
        self.mode == OpenMode::Read && !self.truncates && !self.remove_on_close
    }

    /// The rights in the file that it needs.
    pub fn wanted(self) -> Rights
        ensures { result ≡ wanted_by self }
    {
        Rights {
            read: matches!(self.mode, OpenMode::Read | OpenMode::ReadWrite),
            write: self.mode.writes() || self.truncates,
            execute: self.mode == OpenMode::Execute,
        }
    }

    /// A fid that was just opened so.
    pub fn opened(self) -> Opened
        ensures { result ≡ newly_opened self }
    {
        Opened {
            mode: self.mode,
            remove_on_close: self.remove_on_close,
            next_offset: 0,
            cursor: None,
        }
    }
}

// The low two bits.
fn open_mode_of(bits: u8) -> OpenMode
    ensures { result ≡ open_mode_of bits }
{
    match bits % 4 {
        0 => OpenMode::Read,
        1 => OpenMode::Write,
        2 => OpenMode::ReadWrite,
        _ => OpenMode::Execute,
    }
}
