//! Why a line is no message.

ghost use Rattle.std.specs.Prelude.{◌≡◌, length};
ghost use Rattle.p9_base.specs.declared.stop.Stop.TheVariants.{Refused};

use crate::form::Base;
use crate::key::Key;
use p9_base::Stop;
use std::fmt;
use thiserror::Error;

/// What was expected at a place of a line.
#[derive(Clone, Copy, Debug, PartialEq, Eq)]
pub enum Expected {
    /// The name of a message.
    Verb,
    /// This word.
    Key(Key),
    /// A number in digits of this base, and at most so great.
    Number(Base, u64),
    /// A text: in quotes, in hexadecimal digits, or a bare word.
    Word,
    /// The quote that ends a text.
    Quote,
    /// Pairs of hexadecimal digits.
    Pairs,
    /// A text that a message may have: UTF-8 without NUL, of at most 65,535 bytes.
    Text,
    /// So many bytes as the count before them says.
    Count(u64),
    /// `(`.
    Open,
    /// `)`.
    Close,
    /// This index.
    Index(u64),
    /// A colon after an index.
    Colon,
    /// A stat of at most 65,535 bytes.
    ShortStat,
    /// A message of less than 2^32 bytes.
    ShortMessage,
    /// The end of the line.
    End,
    /// What begins a line of a script: `open`, `close`, `msg` or the number of a session.
    Event,
}

impl fmt::Display for Expected {
    fn fmt<W: fmt::Write>(&self, f: &mut fmt::Formatter<W>) -> fmt::Result {
        match self {
            Expected::Verb => f.write_str("the name of a message"),
            Expected::Key(key) => {
                let word = key.text();
                write!(f, "'{word}'")
            }
            Expected::Number(base, most) => {
                let digits = base.name();
                write!(f, "a number in {digits} digits, at most {most},")
            }
            Expected::Word => f.write_str("a text"),
            Expected::Quote => f.write_str("a quote"),
            Expected::Pairs => f.write_str("pairs of hexadecimal digits"),
            Expected::Text => f.write_str("UTF-8 without NUL of at most 65535 bytes"),
            Expected::Count(count) => write!(f, "{count} bytes"),
            Expected::Open => f.write_str("'('"),
            Expected::Close => f.write_str("')'"),
            Expected::Index(index) => write!(f, "the index {index}"),
            Expected::Colon => f.write_str("':'"),
            Expected::ShortStat => f.write_str("a stat of at most 65535 bytes"),
            Expected::ShortMessage => f.write_str("a message of less than 4294967296 bytes"),
            Expected::End => f.write_str("the end of the line"),
            Expected::Event => f.write_str("'open', 'close', 'msg' or the number of a session"),
        }
    }
}

/// Why a line of words is no message.
#[derive(Clone, Copy, Debug, PartialEq, Eq, Error)]
pub enum WordsError {
    /// Something else was expected after the first `at` bytes of the line.
    #[error("{expected} expected after byte {at}")]
    Unexpected { at: usize, expected: Expected },
    /// An allocation failed.
    #[error("out of memory")]
    NoMemory,
}

/// A place where something else was expected: how many bytes of the line are left there.
#[derive(Clone, Copy, Debug, PartialEq, Eq)]
pub struct Fault {
    pub left: usize,
    pub expected: Expected,
}

/// Why reading stopped: something else was expected, or an allocation failed.
pub type ReadError = Stop<Fault>;

/// Something else was expected where these bytes are left.
pub fn unexpected(expected: Expected, text: &[u8]) -> ReadError
    ensures { result ≡ Refused (record { left = length text.now; expected = expected }) }
{
    Stop::Refused(Fault {
        left: text.len(),
        expected,
    })
}
