//! File names, as intro(5).

ghost use Rattle.std.specs.Prelude.{◌≡◌, ◌==◌, ◌||◌, ◌↔◌, IsTrue, IsNone, IfSome, codes};
ghost use Rattle.std.specs.List.{list_any};
ghost use Rattle.std.specs.Str.{bytes_eq};
ghost use Rattle.p9_base.specs.Name.{is_name};

use crate::text::{Text, is_text};
use std::fmt;
use std::marker::Model;

// The most bytes of such a name.
const NAME_MAX: usize = 255;

/// The name of a file or directory in its parent: 1 to 255 bytes of UTF-8, without `/` and NUL,
/// and neither `.` nor `..`. A server's root has no such name: its name is `/`.
///
/// Equality, order and hash are those of the bytes.
#[derive(Clone, Copy, PartialEq, Eq, PartialOrd, Ord, Hash)]
pub struct Name {
    text: Text<NAME_MAX>,
}

impl Model for Name {
    ghost use Rattle.std.specs.Prelude.{ℕ, List, IsTrue};
    ghost use Rattle.p9_base.specs.Name.{is_name};

    ghost Value = { List ℕ };

    ghost view = { λ n. n.text };

    ghost invariant = { λ n. IsTrue (is_name n.text) };

    ghost inverse = { λ xs. record { text = xs } };
}

impl Name {
    /// The name of this text, or `None` exactly where the text is no valid name.
    pub fn new(text: &str) -> Option<Name>
        ensures some { IfSome result (λ name. (name ≡ text.now) × IsTrue (is_name text.now)) }
        ensures none { IsNone result ↔ ¬ IsTrue (is_name text.now) }
    {
        if !valid_name(text) {
            return None;
        }
        Some(Name {
            text: Text::new(text),
        })
    }

    /// Its text.
    pub fn as_str(&self) -> &str
        ensures text { result.now ≡ self.now }
        ensures valid { IsTrue (is_name self.now) }
    {
        self.text.as_str()
    }
}

impl fmt::Display for Name {
    ghost use Rattle.std.specs.Prelude.{Some};

    ghost output = { λ n. Some n };

    fn fmt<W: fmt::Write>(&self, f: &mut fmt::Formatter<W>) -> fmt::Result {
        f.pad(self.as_str())
    }
}

impl fmt::Debug for Name {
    fn fmt<W: fmt::Write>(&self, f: &mut fmt::Formatter<W>) -> fmt::Result {
        fmt::Debug::fmt(&self.as_str(), f)
    }
}

/// Whether the text may name a file in its parent: 1 to 255 bytes, no `/`, no NUL, and neither
/// `.` nor `..`.
pub fn valid_name(text: &str) -> bool
    ensures { result ≡ is_name text.now }
{
    1 <= text.len() && text.len() <= NAME_MAX && is_text(text) && !has_slash(text) && !is_dots(text)
}

// Whether a `/` is among the characters, which separates the names of a path.
fn has_slash(text: &str) -> bool
    ensures { result ≡ list_any (λ b. b == 47) text.now }
{
    text.as_bytes().contains(&b'/')
}

// Whether the text is `.` or `..`, which name a directory itself and the one above it.
fn is_dots(text: &str) -> bool
    ensures { result ≡ (bytes_eq text.now (codes ".") || bytes_eq text.now (codes "..")) }
{
    text == "." || text == ".."
}
