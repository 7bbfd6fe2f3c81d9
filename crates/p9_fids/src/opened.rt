//! What a fid is open for, as open(5) and read(5).

ghost use Rattle.std.specs.Prelude.{◌≡◌};
ghost use Rattle.p9_fids.specs.Opened.{reads, writes};

/// The four modes of an open file.
#[derive(Clone, Copy, Debug, PartialEq, Eq)]
pub enum OpenMode {
    Read,
    Write,
    ReadWrite,
    /// To execute the file, which reads it.
    Execute,
}

impl OpenMode {
    /// Whether a fid that is open in this mode may be read.
    pub fn reads(self) -> bool
        ensures { result ≡ reads self }
    {
        self != OpenMode::Write
    }

    /// Whether a fid that is open in this mode may be written.
    pub fn writes(self) -> bool
        ensures { result ≡ writes self }
    {
        matches!(self, OpenMode::Write | OpenMode::ReadWrite)
    }
}

/// The last entry that reads of a directory gave: the position of the member in the union, and the
/// entry's number there.
#[derive(Clone, Copy, Debug, PartialEq, Eq)]
pub struct Cursor {
    pub member: usize,
    pub number: u64,
}

/// What a fid is open for.
#[derive(Clone, Copy, Debug, PartialEq, Eq)]
pub struct Opened {
    pub mode: OpenMode,
    /// Whether the file is removed when the fid ends.
    pub remove_on_close: bool,
    /// Where the next read of a directory may begin: the offset of the last one and the number of
    /// bytes that it gave. It may be above every offset.
    pub next_offset: u128,
    /// The last entry that was given, if any was.
    pub cursor: Option<Cursor>,
}
