//! What may be wrong with a world's text.

ghost use Rattle.std.specs.Prelude.{◌≡◌};
ghost use Rattle.p9_world.specs.Error.{line_fault_text};

use p9_base::NoMemory;
use std::fmt;
use thiserror::Error;

/// What is wrong with a line of a world's text. Where several faults apply, the line has the one
/// that is first here.
#[derive(Clone, Copy, Debug, PartialEq, Eq)]
pub enum LineFault {
    /// The first word names no operation.
    UnknownWord,
    /// The operation takes another number of words.
    WordCount,
    /// A file or directory is before the first server, a directory of an unknown server is to
    /// be hidden, or the whole text has no server.
    NoServer,
    /// A server's name has no byte, more than 63 bytes, or one of `/`, `#`, `$` and NUL; or a
    /// variable's has no byte, or one of `/` and `$`.
    BadName,
    /// A path doesn't begin with `/`, has a name that no file may have, or is a file's and `/`.
    BadPath,
    /// A mode isn't three octal digits, after a file's letters `a`, `l` and `t` in this order.
    BadMode,
    /// A user's or group's name has no byte, more than 63 bytes, or a NUL.
    BadUser,
    /// A file's bytes are neither `-` nor hexadecimal, two digits a byte.
    BadHex,
    /// A file has more bytes than [`p9_tree::FILE_MAX`].
    TooLarge,
    /// No earlier line makes the directory in which a new file or directory is to be; or what is
    /// to be hidden is no directory.
    NoParent,
    /// An earlier line has this server, path, user, group, hidden directory or variable; or a line
    /// names a member of a group twice.
    Duplicate,
    /// There are [`p9_base::SERVERS_MAX`] servers, or the server has given all its numbers.
    TooMany,
}

impl LineFault {
    /// The text that a report carries.
    pub fn text(self) -> &'static str
        ensures { result.now ≡ line_fault_text self }
    {
        match self {
            LineFault::UnknownWord => "unknown word",
            LineFault::WordCount => "wrong number of words",
            LineFault::NoServer => "no server",
            LineFault::BadName => "bad name",
            LineFault::BadPath => "bad path",
            LineFault::BadMode => "bad mode",
            LineFault::BadUser => "bad user",
            LineFault::BadHex => "bad hex",
            LineFault::TooLarge => "file too large",
            LineFault::NoParent => "no such directory",
            LineFault::Duplicate => "already there",
            LineFault::TooMany => "too many",
        }
    }
}

impl fmt::Display for LineFault {
    ghost use Rattle.std.specs.Prelude.{Some};
    ghost use Rattle.p9_world.specs.Error.{line_fault_text};

    ghost output = { λ fault. Some (line_fault_text fault) };

    fn fmt<W: fmt::Write>(&self, f: &mut fmt::Formatter<W>) -> fmt::Result {
        f.write_str(self.text())
    }
}

impl std::error::Error for LineFault {}

/// Why a text gives no world.
#[derive(Clone, Copy, Debug, PartialEq, Eq, Error)]
pub enum WorldError {
    /// The first bad line, and what is wrong there. Lines count from 1, and the line 0 is given for
    /// the whole text.
    #[error("line {line}: {kind}")]
    BadWorld { line: u64, kind: LineFault },
    /// An allocation failed.
    #[error("out of memory")]
    NoMemory,
}

/// Every error that [`p9_base::NoMemory`] is made from says that an allocation failed.
impl<E: Drop> From<E> for WorldError
where
    NoMemory: From<E>,
{
    ghost use Rattle.std.specs.Prelude.{◌≡◌};
    ghost use Rattle.p9_world.specs.declared.error.WorldError.TheVariants.{NoMemory as OutOfMemory};

    ghost from_gives = { λ _ error. error ≡ OutOfMemory };

    fn from(_error: E) -> WorldError {
        WorldError::NoMemory
    }
}

/// Why a line makes no change: what is wrong with it, or a failed allocation.
pub(crate) type Stop = p9_base::Stop<LineFault>;
