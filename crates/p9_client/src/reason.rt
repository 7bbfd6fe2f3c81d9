//! Why a server refused a request, in its own words.

ghost use Rattle.std.specs.Prelude.{◌≡◌, ◌≤◌, length};

use arrayvec::ArrayString;
use std::fmt;

/// The most bytes that are kept of a server's text.
pub const REASON_MAX: usize = 255;

/// Why a server refused a request: its text, of which at most [`REASON_MAX`] bytes are kept.
#[derive(Debug, Drop)]
pub struct Reason {
    pub text: ArrayString<REASON_MAX>,
}

impl Reason {
    /// The reason of this text. A longer text is cut at the end of a character.
    pub fn new(text: &str) -> Reason
        ensures { length text.now ≤ 255 → result.text.bytes ≡ text.now }
    {
        match ArrayString::from(text) {
            Ok(text) => Reason { text },
            Err(_) => cut(text),
        }
    }

    /// The text.
    pub fn as_str(&self) -> &str
        ensures { result.now ≡ self.now.text.bytes }
    {
        self.text.as_str()
    }
}

// The first characters of a text.
fn cut(text: &str) -> Reason {
    let mut kept = ArrayString::new();
    for c in text.chars() {
        if kept.try_push(c).is_err() {
            break;
        }
    }
    Reason { text: kept }
}

impl fmt::Display for Reason {
    fn fmt<W: fmt::Write>(&self, f: &mut fmt::Formatter<W>) -> fmt::Result {
        f.write_str(self.as_str())
    }
}
