//! Why a namespace file isn't run.

ghost use Rattle.std.specs.Prelude.{◌≡◌};
ghost use Rattle.p9_nsline.specs.Text.{form_text};

use p9_base::NoMemory;
use std::fmt;
use thiserror::Error;

/// What is wrong with the form of a line.
#[derive(Clone, Copy, Debug, PartialEq, Eq)]
pub enum BadForm {
    /// The first word names no operation.
    UnknownWord,
    /// The operation takes another number of words, flags not counted.
    WordCount,
    /// A flag without a letter, with a letter that is none of `abcC`, or `a` together with `b`.
    BadFlag,
}

impl BadForm {
    /// The text that is printed for it.
    pub fn text(self) -> &'static str
        ensures { result.now ≡ form_text self }
    {
        match self {
            BadForm::UnknownWord => "unknown word",
            BadForm::WordCount => "wrong number of words",
            BadForm::BadFlag => "bad flag",
        }
    }
}

impl fmt::Display for BadForm {
    ghost use Rattle.std.specs.Prelude.{Some};
    ghost use Rattle.p9_nsline.specs.Text.{form_text};

    ghost output = { λ form. Some (form_text form) };

    fn fmt<W: fmt::Write>(&self, f: &mut fmt::Formatter<W>) -> fmt::Result {
        f.write_str(self.text())
    }
}

impl std::error::Error for BadForm {}

/// Why a namespace file isn't run. The mount table is as before.
#[derive(Clone, Copy, Debug, PartialEq, Eq, Error)]
pub enum NsError {
    /// The first line of bad form, counted from 1.
    #[error("line {line}: {kind}")]
    BadLine { line: u64, kind: BadForm },
    /// An allocation failed.
    #[error("out of memory")]
    NoMemory,
}

/// Every error that [`p9_base::NoMemory`] is made from says that an allocation failed.
impl<E: Drop> From<E> for NsError
where
    NoMemory: From<E>,
{
    ghost use Rattle.std.specs.Prelude.{◌≡◌};
    ghost use Rattle.p9_nsline.specs.declared.error.NsError.TheVariants.{NoMemory as OutOfMemory};

    ghost from_gives = { λ _ error. error ≡ OutOfMemory };

    fn from(_error: E) -> NsError {
        NsError::NoMemory
    }
}
