//! Why a call of a session does not give what was asked.

ghost use Rattle.std.specs.Prelude.{◌≡◌};
ghost use Rattle.p9_client.specs.Reason.{ends};

use crate::reason::Reason;
use p9_base::NoMemory;
use std::io;
use thiserror::Error;

/// Why a call of a session does not give what was asked. After [`ClientError::Refused`],
/// [`ClientError::TooLong`] and [`ClientError::NoMemory`] the session goes on. After each other
/// error it has failed: it neither writes nor reads again.
#[derive(Debug, Drop, Error)]
pub enum ClientError {
    /// The server refused the request, and this is its text.
    #[error("{0}")]
    Refused(Reason),
    /// The request has no spelling, as where a name has a NUL, or is longer than the session's
    /// msize. Nothing was written.
    #[error("the request is too long for a message")]
    TooLong,
    /// The session had failed before. Nothing was written.
    #[error("the session has failed")]
    Over,
    /// The stream failed, or ended before the reply did.
    #[error("{0}")]
    Stream(io::Error),
    /// The reply's size is below 7 or above the session's msize. Its first 7 bytes were read.
    #[error("the server sent a frame of a size that is not allowed")]
    BadSize,
    /// The reply is no message that a server sends.
    #[error("the server sent what is no message")]
    NoMessage,
    /// The reply has another tag than the request.
    #[error("the server answered another tag")]
    OtherTag,
    /// The reply is to another kind of request.
    #[error("the server answered another kind of request")]
    OtherType,
    /// The reply gives what was not asked for: more bytes, more qids than names, a greater msize
    /// or one below [`crate::MSIZE_MIN`], or another version.
    #[error("the server gave what was not asked for")]
    Unasked,
    /// An allocation failed, after the reply was read.
    #[error("out of memory")]
    NoMemory,
}

impl ClientError {
    /// Whether a session has failed after this error.
    pub fn ends_session(&self) -> bool
        ensures { result ≡ ends self.now }
    {
        !matches!(
            self,
            ClientError::Refused(_) | ClientError::TooLong | ClientError::NoMemory
        )
    }
}

impl From<NoMemory> for ClientError {
    ghost use Rattle.p9_client.specs.declared.error.ClientError.TheVariants.{NoMemory};

    ghost from_gives = { λ _ error. error ≡ NoMemory };

    fn from(_error: NoMemory) -> ClientError {
        ClientError::NoMemory
    }
}
