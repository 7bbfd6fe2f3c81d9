//! The faults that a reply can name, each with its number and its text.

ghost use Rattle.std.specs.Prelude.{◌≡◌, ◌≤◌, IsTrue, length};
ghost use Rattle.p9_base.specs.Fault.{fault_text_max, fault_number, text_of};
ghost use Rattle.p9_base.specs.Text.{is_text};

use crate::memory::NoMemory;
use std::error::Error;
use std::fmt;

/// Why a request is refused. The text of each is what the reply of error(5) carries.
#[derive(Clone, Copy, Debug, PartialEq, Eq)]
pub enum Fault {
    /// The bytes are no message, or more than the session's msize.
    Malformed,
    /// A request other than a version, while the session has no msize.
    VersionNotSet,
    /// A version asks for an msize below 512.
    SmallMsize,
    /// There is no authentication: an auth, or an attach with an afid.
    NoAuthentication,
    /// An attach by somebody who is no listed user.
    UnknownUser,
    /// An attach by a name that is neither empty nor begins with a slash.
    UnknownAttachName,
    /// The session has no such fid, or it may not be one.
    UnknownFid,
    /// A new fid that the session has already.
    FidInUse,
    /// A walk, an open or a create of an open fid.
    FidOpen,
    /// A read or write of a fid that is not open for it.
    FidNotOpen,
    /// A file where a directory must be.
    NotDirectory,
    /// A name that no member of the directory has.
    NotFound,
    /// The user lacks a permission.
    PermissionDenied,
    /// A file that has to exist was removed: that of a fid, the root of the name space in an
    /// attach, each member of a place from which a walk or a create goes on, the member in which a
    /// create makes its file, or the file where a walk arrives.
    PhaseError,
    /// A mode to open or create with that means nothing.
    BadOpenMode,
    /// A directory where a file must be.
    IsDirectory,
    /// An exclusive-use file that some fid has open.
    ExclusiveUse,
    /// A name that no file may have.
    BadFileName,
    /// A create or a rename to a name that the directory has.
    FileExists,
    /// A create in a union of which no member permits it.
    CreationForbidden,
    /// A directory read at an offset that is neither 0 nor where the last one ended.
    BadDirectoryOffset,
    /// A directory read with no room for the next entry.
    SmallReadCount,
    /// A file would have more bytes than files may have.
    FileTooLarge,
    /// A remove of a directory with entries.
    NotEmpty,
    /// A remove or a rename of a server's root.
    IsRoot,
    /// A wstat of a field that never changes, or of a mode that means nothing or is of the other
    /// kind: a directory's for a file, or a file's for a directory.
    FixedField,
    /// A session has as many fids as it may have.
    TooManyFids,
    /// A server has given all its qid numbers.
    QidsUsedUp,
    /// An allocation failed.
    OutOfMemory,
    /// A fid is as far from its place of attachment as it may be.
    PathTooDeep,
}

/// The most bytes of a fault's text.
pub const FAULT_TEXT_MAX: usize = 34;

impl Fault {
    /// The fault's number, from 1 to 30 in the order above.
    pub fn number(self) -> u8
        ensures { result ≡ fault_number self }
    {
        self as u8 + 1
    }

    /// The text that a reply carries, at most [`FAULT_TEXT_MAX`] bytes.
    #[tactic(auto, using(crate::proofs::Faults::fault_text_is_text))]
    pub fn text(self) -> &'static str
        ensures value { result.now ≡ text_of self }
        ensures short { length (text_of self) ≤ fault_text_max }
        ensures sound { IsTrue (is_text (text_of self)) }
    {
        match self {
            Fault::Malformed => "malformed message",
            Fault::VersionNotSet => "version not set",
            Fault::SmallMsize => "msize too small",
            Fault::NoAuthentication => "authentication not required",
            Fault::UnknownUser => "unknown user",
            Fault::UnknownAttachName => "unknown attach name",
            Fault::UnknownFid => "unknown fid",
            Fault::FidInUse => "fid in use",
            Fault::FidOpen => "fid already open",
            Fault::FidNotOpen => "fid not open for this",
            Fault::NotDirectory => "not a directory",
            Fault::NotFound => "file does not exist",
            Fault::PermissionDenied => "permission denied",
            Fault::PhaseError => "phase error",
            Fault::BadOpenMode => "bad open mode",
            Fault::IsDirectory => "is a directory",
            Fault::ExclusiveUse => "exclusive use file already open",
            Fault::BadFileName => "bad file name",
            Fault::FileExists => "file already exists",
            Fault::CreationForbidden => "mounted directory forbids creation",
            Fault::BadDirectoryOffset => "bad directory offset",
            Fault::SmallReadCount => "read count too small",
            Fault::FileTooLarge => "file too large",
            Fault::NotEmpty => "directory not empty",
            Fault::IsRoot => "root can't be removed or renamed",
            Fault::FixedField => "wstat of a fixed field",
            Fault::TooManyFids => "too many fids",
            Fault::QidsUsedUp => "qid numbers used up",
            Fault::OutOfMemory => "out of memory",
            Fault::PathTooDeep => "path too deep",
        }
    }
}

impl fmt::Display for Fault {
    ghost use Rattle.std.specs.Prelude.{Some};
    ghost use Rattle.p9_base.specs.Fault.{text_of};

    ghost output = { λ fault. Some (text_of fault) };

    fn fmt<W: fmt::Write>(&self, f: &mut fmt::Formatter<W>) -> fmt::Result {
        f.write_str(self.text())
    }
}

impl Error for Fault {}

/// Every error that [`NoMemory`] is made from says that an allocation failed.
impl<E: Drop> From<E> for Fault
where
    NoMemory: From<E>,
{
    ghost use Rattle.std.specs.Prelude.{◌≡◌};
    ghost use Rattle.p9_base.specs.declared.fault.Fault.TheVariants.{OutOfMemory};

    ghost from_gives = { λ _ fault. fault ≡ OutOfMemory };

    fn from(_error: E) -> Fault {
        Fault::OutOfMemory
    }
}
