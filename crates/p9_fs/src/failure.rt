//! How a command fails, and how that is reported.

use p9_base::NoMemory;
use p9_client::{ClientError, FileError};
use p9_shell::status::{BAD_COMMAND_LINE, INPUT_OR_OUTPUT_FAILED, OUT_OF_MEMORY, REFUSED};
use p9_shown::AsShown;
use std::alloc::{AllocError, AllocFailed};
use std::fmt::Display;
use std::io;
use std::io::ErrorKind;

/// How a command failed. It was reported where it was met.
#[derive(Clone, Copy)]
pub enum Failure {
    /// The server refused what was asked, or a name was refused.
    Refused,
    /// The words are a bad command line.
    BadWords,
    /// An allocation failed.
    NoMemory,
    /// A file of this system could not be read or written.
    Local,
    /// A limit was met.
    Limit,
    /// The output or the connection failed, or the server sent what it must not.
    Failed,
}

impl Failure {
    /// The exit status.
    pub fn status(self) -> u8 {
        match self {
            Failure::Refused | Failure::Limit => REFUSED,
            Failure::BadWords => BAD_COMMAND_LINE,
            Failure::NoMemory => OUT_OF_MEMORY,
            Failure::Local | Failure::Failed => INPUT_OR_OUTPUT_FAILED,
        }
    }

    /// Whether what comes after it can still be done.
    pub fn goes_on(self) -> bool {
        matches!(self, Failure::Refused | Failure::BadWords | Failure::Local)
    }
}

/// How a command ends that has several parts. After a failure that concerns one part the others are
/// done, and the first such failure is that of the command.
#[derive(Clone, Copy)]
pub struct Outcome {
    first: Option<Failure>,
}

impl Outcome {
    /// Nothing failed so far.
    pub fn new() -> Outcome {
        Outcome { first: None }
    }

    /// Notes how a part ended. The error is a failure after which no other part can be done.
    pub fn note(&mut self, done: Result<(), Failure>) -> Result<(), Failure> {
        match done {
            Ok(()) => Ok(()),
            Err(failure) if failure.goes_on() => {
                self.first = self.first.or(Some(failure));
                Ok(())
            }
            Err(failure) => Err(failure),
        }
    }

    /// How the command ends.
    pub fn end(self) -> Result<(), Failure> {
        match self.first {
            Some(failure) => Err(failure),
            None => Ok(()),
        }
    }
}

impl From<AllocError> for Failure {
    fn from(_error: AllocError) -> Failure {
        Failure::NoMemory
    }
}

impl<T: Drop> From<AllocFailed<T>> for Failure {
    fn from(_error: AllocFailed<T>) -> Failure {
        Failure::NoMemory
    }
}

impl From<NoMemory> for Failure {
    fn from(_error: NoMemory) -> Failure {
        Failure::NoMemory
    }
}

// How a command failed that met this error.
fn failure_of(error: &FileError) -> Failure {
    match error {
        FileError::Session(ClientError::Refused(_) | ClientError::TooLong) | FileError::NotWalked =>
            Failure::Refused,
        FileError::Session(ClientError::NoMemory) | FileError::NoMemory => Failure::NoMemory,
        FileError::Output(_) => Failure::Local,
        _ => Failure::Failed,
    }
}

/// Reports why the file of a path is not had, and returns how the command failed.
pub fn report(rt: &HostRuntime, path: &str, error: &FileError) -> Failure {
    report_about(rt, path, error, failure_of(error))
}

/// Reports why a file of the system is not had, and returns how the command failed.
pub fn report_local(rt: &HostRuntime, path: &str, error: &io::Error) -> Failure {
    let failure = if error.kind() == ErrorKind::OutOfMemory {
        Failure::NoMemory
    } else {
        Failure::Local
    };
    report_about(rt, path, error, failure)
}

/// Returns what was done with a file of the system, of which a failure is reported.
pub fn finish_local<T: Drop>(
    rt: &HostRuntime,
    path: &str,
    done: io::Result<T>,
) -> Result<T, Failure> {
    match done {
        Ok(value) => Ok(value),
        Err(error) => Err(report_local(rt, path, &error)),
    }
}

/// Returns what was done with the standard output, of which a failure is reported, but not that its
/// reader has read enough, as `head` has.
pub fn finish_output(rt: &HostRuntime, done: io::Result<()>) -> Result<(), Failure> {
    match done {
        Ok(()) => Ok(()),
        Err(error) if error.kind() == ErrorKind::BrokenPipe => Err(Failure::Failed),
        Err(error) => Err(report_about(rt, "standard output", &error, Failure::Failed)),
    }
}

/// Reports what there is to say of the file of a path, and returns a failure.
pub fn report_about(
    rt: &HostRuntime,
    path: &str,
    what: &impl Display,
    failure: Failure,
) -> Failure {
    match format!(in rt.alloc(); "{path}: {what}") {
        Ok(text) => report_text(rt, text.as_str(), failure),
        Err(_) => Failure::NoMemory,
    }
}

/// Reports a text, and returns a failure.
pub fn report_text(rt: &HostRuntime, text: &str, failure: Failure) -> Failure {
    let text = AsShown(text);
    let _ = eprintln!(rt; "p9_fs: {text}");
    failure
}

/// Reports that a mode is none, and returns how a command fails then.
pub fn report_mode(rt: &HostRuntime) -> Failure {
    report_text(
        rt,
        "a mode is an octal number up to 777, as 755",
        Failure::BadWords,
    )
}
