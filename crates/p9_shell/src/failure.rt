//! Why a program ends before its work is done.

ghost use Rattle.std.specs.Prelude.{◌≡◌};
ghost use Rattle.std.specs.IoError.{error_kind};
ghost use Rattle.p9_shell.specs.declared.failure.Failure.TheVariants.{NoMemory as OutOfMemory};
ghost use Rattle.p9_shell.specs.Status.{failure_of, status_of};

use crate::status::{BAD_COMMAND_LINE, INPUT_OR_OUTPUT_FAILED, OUT_OF_MEMORY, REFUSED};
use p9_base::NoMemory;
use std::alloc::{AllocError, AllocFailed};
use std::io::{self, ErrorKind};
use std::process::ExitCode;

/// Why a program ends before its work is done. It was reported where it was met, but for a failed
/// allocation, which [`exit`] reports.
#[derive(Clone, Copy, Debug, PartialEq, Eq)]
pub enum Failure {
    /// What was asked is refused.
    Refused,
    /// The words are no command line.
    BadWords,
    /// An allocation failed.
    NoMemory,
    /// Input or output failed.
    Failed,
}

impl Failure {
    /// The exit status: 1, 2, 3 and 4, in the order of the variants.
    pub fn status(self) -> u8
        ensures { result ≡ status_of self }
    {
        match self {
            Failure::Refused => REFUSED,
            Failure::BadWords => BAD_COMMAND_LINE,
            Failure::NoMemory => OUT_OF_MEMORY,
            Failure::Failed => INPUT_OR_OUTPUT_FAILED,
        }
    }
}

impl From<io::Error> for Failure {
    ghost from_gives = { λ error failure. failure ≡ failure_of (error_kind error) };

    fn from(error: io::Error) -> Failure {
        match error.kind() {
            ErrorKind::OutOfMemory => Failure::NoMemory,
            _ => Failure::Failed,
        }
    }
}

impl From<AllocError> for Failure {
    ghost from_gives = { λ _ failure. failure ≡ OutOfMemory };

    fn from(_error: AllocError) -> Failure {
        Failure::NoMemory
    }
}

impl<T: Drop> From<AllocFailed<T>> for Failure {
    ghost from_gives = { λ _ failure. failure ≡ OutOfMemory };

    fn from(_error: AllocFailed<T>) -> Failure {
        Failure::NoMemory
    }
}

impl From<NoMemory> for Failure {
    ghost from_gives = { λ _ failure. failure ≡ OutOfMemory };

    fn from(_error: NoMemory) -> Failure {
        Failure::NoMemory
    }
}

/// The exit code of a program that came to this: its status, or that of its failure. A failed
/// allocation is reported on standard error.
pub fn exit(rt: &HostRuntime, done: Result<u8, Failure>) -> ExitCode {
    if done == Err(Failure::NoMemory) {
        let _ = eprintln!(rt; "out of memory");
    }
    match done {
        Ok(status) => ExitCode::from(status),
        Err(failure) => ExitCode::from(failure.status()),
    }
}
