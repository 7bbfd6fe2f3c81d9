//! Kinds of bytes, and how far they go from the front of a text.

ghost use Rattle.std.specs.Prelude.{◌≡◌, ◌≤◌, length};
ghost use Rattle.std.specs.List.{list_all, prefix_len};
ghost use Rattle.p9_words.specs.Class.{is_in, skip_blanks};

use crate::form::Base;

/// A kind of bytes.
#[derive(Clone, Copy, Debug, PartialEq, Eq)]
pub enum Class {
    /// A blank or a tab.
    Blank,
    /// Any other byte.
    Filled,
    /// A digit of this base.
    Digit(Base),
    /// A byte of a bare word: from `!` to `~`, but no quote and no parenthesis.
    Bare,
    /// Any byte but a quote.
    Unquoted,
}

impl Class {
    /// Whether the byte is of the kind.
    pub fn contains(self, byte: u8) -> bool
        ensures { result ≡ is_in self byte }
    {
        match self {
            Class::Blank => byte == b' ' || byte == b'\t',
            Class::Filled => !(byte == b' ' || byte == b'\t'),
            Class::Digit(base) => char::from(byte).is_digit(base.radix()),
            Class::Bare => {
                byte > b' ' && byte < 127 && byte != b'\'' && byte != b'(' && byte != b')'
            }
            Class::Unquoted => byte != b'\'',
        }
    }
}

/// How many bytes at the front are of the kind.
pub fn prefix_len(class: Class, text: &[u8]) -> usize
    ensures front { result ≡ prefix_len (is_in class) text.now }
    ensures within { result ≤ length text.now }
{
    for (i, byte) in text.iter().enumerate() {
        if !class.contains(*byte) {
            return i;
        }
    }
    text.len()
}

/// The text after the blanks at its front.
#[tactic(auto, unfolding(crate::specs::Class::skip_blanks))]
pub fn skip_blanks(text: &[u8]) -> &[u8]
    ensures { result.now ≡ skip_blanks text.now }
{
    &text[prefix_len(Class::Blank, text)..]
}

/// Whether each byte is of the kind.
pub fn all_in(class: Class, text: &[u8]) -> bool
    ensures { result ≡ list_all (is_in class) text.now }
{
    text.iter().all(|byte| class.contains(*byte))
}
