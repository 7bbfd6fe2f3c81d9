//! A short text, kept in place.

ghost use Rattle.std.specs.Prelude.{◌≡◌, ◌==◌, ◌≤◌, ◌<◌, ◌^◌, IsTrue, length};
ghost use Rattle.std.specs.List.{list_any};
ghost use Rattle.p9_base.specs.Text.{is_text as text_test};

use std::cmp::Ordering;
use std::hash::{Hash, Hasher};
use std::marker::Model;
use std::str::from_utf8_unchecked;

/// A text of at most `N` bytes, UTF-8 without NUL. The bytes after it are zero.
#[derive(Clone, Copy)]
pub struct Text<const N: usize> {
    len: u8,
    bytes: [u8; N],
}

impl<const N: usize> Model for Text<N> {
    ghost use Rattle.std.specs.Prelude.{◌≡◌, ◌≤◌, ℕ, List, length, take, IsTrue};
    ghost use Rattle.p9_base.specs.Text.{is_text, padded};

    ghost Value = { List ℕ };

    ghost use Rattle.p9_base.specs.TextFields.{fields_back};

    ghost view = { λ t. take t.len t.bytes };

    ghost invariant = { λ t. (t.len ≤ N) × (t.bytes ≡ padded N (take t.len t.bytes))
        × IsTrue (is_text (take t.len t.bytes)) };

    ghost inverse = { λ xs. record { len = length xs; bytes = padded N xs } };

    ghost inverse_ok = { λ a h. fields_back N a h.0 h.1 };
}

impl<const N: usize> Text<N> {
    /// The text of these characters.
    pub fn new(text: &str) -> Text<N>
        requires fits { length text.now ≤ N }
        requires text { IsTrue (text_test text.now) }
        requires small { N < 2 ^ 8 }
        ensures { result ≡ text.now }
    {
        let mut bytes = [0u8; N];
        bytes[..text.len()].copy_from_slice(text.as_bytes());
        Text {
            len: text.len() as u8,
            bytes,
        }
    }

    /// Its characters.
    pub fn as_str(&self) -> &str
        ensures text { result.now ≡ self.now }
        ensures short { length self.now ≤ N }
        ensures sound { IsTrue (text_test self.now) }
    {
        unsafe { from_utf8_unchecked(&self.bytes[..self.len as usize]) }
    }
}

/// Whether the characters are a text: UTF-8, as they are, without NUL.
pub fn is_text(text: &str) -> bool
    ensures { result ≡ text_test text.now }
{
    !has_nul(text)
}

// Whether a NUL is among the characters.
fn has_nul(text: &str) -> bool
    ensures { result ≡ list_any (λ b. b == 0) text.now }
{
    text.as_bytes().contains(&0)
}

impl<const N: usize> PartialEq for Text<N> {
    ghost use Rattle.std.specs.Str.{bytes_eq};
    ghost use Rattle.std.specs.Cmp.Lexicographic.{nat_list_eq_equiv};
    ghost use Rattle.std.proofs.Common.{rules};
    ghost use Rattle.std.specs.Cmp.Rules.{comparing};

    ghost eq = { bytes_eq };

    ghost laws = { Prim.search (comparing, rules) };

    fn eq(&self, other: &Text<N>) -> bool {
        self.as_str() == other.as_str()
    }
}

impl<const N: usize> Eq for Text<N> {
    ghost use Rattle.std.proofs.Common.{rules};
    ghost use Rattle.std.specs.Cmp.Rules.{comparing};

    ghost laws = { Prim.search (comparing, rules) };
}

impl<const N: usize> Ord for Text<N> {
    ghost use Rattle.std.specs.Cmp.Lexicographic.{slice_cmp};
    ghost use Rattle.std.specs.Ordering.{nat_cmp};
    ghost use Rattle.std.proofs.Common.{rules};
    ghost use Rattle.std.specs.Cmp.Rules.{comparing};

    ghost cmp = { slice_cmp nat_cmp };

    ghost total = { Prim.search (comparing, rules) };

    ghost matches_partial_cmp = { Prim.search (comparing, rules) };

    ghost matches_eq = { Prim.search (comparing, rules) };

    fn cmp(&self, other: &Text<N>) -> Ordering {
        self.as_str().cmp(other.as_str())
    }
}

impl<const N: usize> PartialOrd for Text<N> {
    ghost use Rattle.std.specs.Cmp.Lexicographic.{slice_cmp};
    ghost use Rattle.std.specs.Ordering.{nat_cmp, as_partial_cmp};
    ghost use Rattle.std.proofs.Common.{rules};
    ghost use Rattle.std.specs.Cmp.{partial_order_from_own_ties};
    ghost use Rattle.std.specs.Cmp.Rules.{comparing};

    ghost partial_cmp = { as_partial_cmp (slice_cmp nat_cmp) };

    ghost laws = { partial_order_from_own_ties (Prim.search (comparing, rules))
        (Prim.search (comparing, rules)) };

    fn partial_cmp(&self, other: &Text<N>) -> Option<Ordering> {
        Some(self.cmp(other))
    }
}

impl<const N: usize> Hash for Text<N> {
    ghost use Rattle.std.specs.Hash as fed;
    ghost use Rattle.std.proofs.Common.{rules};
    ghost use Rattle.std.specs.Cmp.Rules.{hashing};

    ghost hash_input = { λ t. fed.str t };

    ghost respects_eq = { Prim.search (hashing, rules) };

    fn hash<H: Hasher>(&self, state: &mut H) {
        self.as_str().hash(state);
    }
}
