//! Why nothing is written, and how it is reported.

use p9_words::Expected;
use std::fmt;
use thiserror::Error;

/// What the next line of the replies was to be.
#[derive(Clone, Copy, Debug, PartialEq, Eq)]
pub enum Awaited {
    /// A reply, in hexadecimal digits, to the message of this line of the script.
    Reply(usize),
    /// `skip`, for the event of this line of the script.
    Skip(usize),
    /// None: there is one for each event already.
    End,
}

impl fmt::Display for Awaited {
    fn fmt<W: fmt::Write>(&self, f: &mut fmt::Formatter<W>) -> fmt::Result {
        match self {
            Awaited::Reply(line) => write!(f, "the reply to line {line} of the script"),
            Awaited::Skip(line) => write!(f, "'skip' for line {line} of the script"),
            Awaited::End => write!(f, "the end"),
        }
    }
}

/// Why nothing is written. Lines count from 1, after the line that begins the section.
#[derive(Clone, Copy, Debug, PartialEq, Eq, Error)]
pub enum Refusal {
    /// The input is no text.
    #[error("input: not UTF-8")]
    NotUtf8,
    /// In this line of the script something else was expected after its first `at` bytes.
    #[error("script:{line}: {expected} expected after byte {at}")]
    BadLine {
        line: usize,
        at: usize,
        expected: Expected,
    },
    /// The input has no line `%% replies`.
    #[error("replies: missing")]
    NoReplies,
    /// Something else was awaited in this line of the replies.
    #[error("replies:{line}: {awaited} expected")]
    BadReply {
        line: usize,
        awaited: Awaited,
    },
}

/// Why nothing is written: something is wrong in the input, or an allocation failed.
pub type Stop = p9_base::Stop<Refusal>;
