//! Why a whole file, a listing or a path is not had.

ghost use Rattle.std.specs.Prelude.{◌≡◌};
ghost use Rattle.p9_client.specs.Files.{ends_file};

use crate::error::ClientError;
use p9_base::NoMemory;
use std::alloc::AllocFailed;
use std::io;
use thiserror::Error;

/// Why a whole file, a listing or a path is not had. After [`FileError::BadEntry`] and
/// [`FileError::Endless`] the session has failed, and after [`FileError::Session`] where its
/// [`ClientError`] says so.
#[derive(Debug, Drop, Error)]
pub enum FileError {
    /// A call of the session failed.
    #[error("{0}")]
    Session(ClientError),
    /// A path leads nowhere: the server walked by fewer names than were asked for.
    #[error("file does not exist")]
    NotWalked,
    /// The contents of a directory have an entry that is cut, or is no stat.
    #[error("the server sent a directory entry that is no stat")]
    BadEntry,
    /// The contents of a directory are more than [`crate::LISTING_MAX`] bytes.
    #[error("the directory is too long to be listed")]
    Endless,
    /// The server wrote none of the bytes that it was sent.
    #[error("the server wrote nothing")]
    Stuck,
    /// What was read of a file could not be written to where it was to go.
    #[error("{0}")]
    Output(io::Error),
    /// An allocation failed.
    #[error("out of memory")]
    NoMemory,
}

impl FileError {
    /// Whether a session has failed after this error.
    pub fn ends_session(&self) -> bool
        ensures { result ≡ ends_file self.now }
    {
        match self {
            FileError::Session(error) => error.ends_session(),
            FileError::BadEntry | FileError::Endless => true,
            _ => false,
        }
    }
}

impl From<ClientError> for FileError {
    ghost use Rattle.p9_client.specs.declared.file_error.FileError.TheVariants.{Session};

    ghost from_gives = { λ error made. made ≡ Session error };

    fn from(error: ClientError) -> FileError {
        FileError::Session(error)
    }
}

impl From<NoMemory> for FileError {
    ghost use Rattle.p9_client.specs.declared.file_error.FileError.TheVariants.{NoMemory};

    ghost from_gives = { λ _ made. made ≡ NoMemory };

    fn from(_error: NoMemory) -> FileError {
        FileError::NoMemory
    }
}

impl<T: Drop> From<AllocFailed<T>> for FileError {
    ghost use Rattle.p9_client.specs.declared.file_error.FileError.TheVariants.{NoMemory};

    ghost from_gives = { λ _ made. made ≡ NoMemory };

    fn from(_error: AllocFailed<T>) -> FileError {
        FileError::NoMemory
    }
}
