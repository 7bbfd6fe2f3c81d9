//! Why an operation of a namespace file does nothing.

ghost use Rattle.std.specs.Prelude.{◌≡◌};
ghost use Rattle.p9_nsline.specs.Text.{fault_text};

use p9_base::Fault;
use std::error::Error;
use std::fmt;

/// Why an operation fails. It is reported with its line, and changes nothing.
#[derive(Clone, Copy, Debug, PartialEq, Eq)]
pub enum OpFault {
    /// A path leads nowhere, to a file where a directory must be, or to a place that doesn't exist
    /// any more, or has too many places.
    Path(Fault),
    /// No server has this name.
    UnknownServer,
    /// A directory on a file, a file on a directory, or a bind before or after a file.
    KindMismatch,
    /// Nothing is mounted there.
    NotMounted,
    /// The file is no member of the union.
    NotMember,
    /// A mount of one of several trees of a server, which has only one.
    SpecGiven,
    /// An operation that isn't offered here: `import`.
    NotOffered,
    /// An included file is a directory, isn't UTF-8, or has a line of bad form.
    BadInclude,
    /// A file is included by one that is nested as deep as files may be.
    TooDeep,
}

impl OpFault {
    /// The text that is printed for it.
    pub fn text(self) -> &'static str
        ensures { result.now ≡ fault_text self }
    {
        match self {
            OpFault::Path(fault) => fault.text(),
            OpFault::UnknownServer => "unknown server",
            OpFault::KindMismatch => "inconsistent mount",
            OpFault::NotMounted => "not mounted",
            OpFault::NotMember => "not in the union",
            OpFault::SpecGiven => "spec not offered",
            OpFault::NotOffered => "not offered",
            OpFault::BadInclude => "bad included file",
            OpFault::TooDeep => "nested too deep",
        }
    }
}

impl fmt::Display for OpFault {
    ghost use Rattle.std.specs.Prelude.{Some};
    ghost use Rattle.p9_nsline.specs.Text.{fault_text};

    ghost output = { λ fault. Some (fault_text fault) };

    fn fmt<W: fmt::Write>(&self, f: &mut fmt::Formatter<W>) -> fmt::Result {
        f.write_str(self.text())
    }
}

impl Error for OpFault {}

/// Why an operation ends: it fails, or an allocation fails.
pub type Stop = p9_base::Stop<OpFault>;
