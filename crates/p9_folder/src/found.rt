//! What was found in a folder.

ghost use Rattle.std.specs.Prelude.{◌≡◌, nat_lt};

use p9_log::Crash;
use std::fmt::{self, Display};

// A log that was ended whole has at most so many bytes behind the last block that counts, but for zeros.
const END: usize = 12;

/// What was found in a folder: how its last server ended, and how many bytes of changes don't count.
/// Those of a log that was ended whole are not told of.
#[derive(Clone, Copy)]
pub struct Found {
    pub how: Crash,
    pub left_out: usize,
}

impl Found {
    /// Whether bytes don't count that are not the end of a log that was ended whole.
    pub fn is_cut(&self) -> bool
        ensures { result ≡ nat_lt 12 self.now.left_out }
    {
        self.left_out > END
    }
}

impl Display for Found {
    fn fmt<W: fmt::Write>(&self, f: &mut fmt::Formatter<W>) -> fmt::Result {
        f.write_str(match self.how {
            Crash::Killed => "all that was written is there",
            Crash::Stopped => {
                "the machine was started again since, and all that was synced is there"
            }
        })?;
        if !self.is_cut() {
            return Ok(());
        }
        write!(f, "; left out: {} bytes behind that", self.left_out)
    }
}
