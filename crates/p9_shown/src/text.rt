//! Text as it is shown to people.

ghost use Rattle.std.specs.Prelude.{◌≡◌, ◌++◌, IfOk, OnOk, encode_utf8_all};
ghost use Rattle.std.specs.Char.Escape.{escape_unicode};
ghost use Rattle.std.specs.String.{string_bytes};
ghost use Rattle.p9_shown.specs.Text.{is_plain, is_unseen, is_visible, shown_char, shown_text};

use std::alloc::{AllocError, Allocator};
use std::fmt::{self, Display, Formatter, Write};
use ucd_category::{GeneralCategory, GeneralCategoryGroup};

/// A text as it is shown: each character as [`shown`] has it. It is for what is formatted.
#[derive(Clone, Copy)]
pub struct AsShown<'a>(pub &'a str);

impl Display for AsShown<'_> {
    fn fmt<W: Write>(&self, f: &mut Formatter<W>) -> fmt::Result {
        for c in self.0.chars() {
            if is_plain(c) {
                write!(f, "{c}")?;
            } else {
                write!(f, "{}", c.escape_debug())?;
            }
        }
        Ok(())
    }
}

/// The text as it is shown. A control character, a backslash, a character that is not seen, as those
/// that turn the direction of the text, and every blank but the space are escaped as
/// `char::escape_debug` does; all others are as they are. So what is shown is one line, moves no
/// cursor, and says which text it is. The only error is that an allocation fails.
pub fn shown<A: Allocator + Copy>(alloc: A, text: &str) -> Result<String<A>, AllocError>
    ensures { IfOk result (λ out. string_bytes out ≡ shown_text text.now) }
{
    let mut out = String::new(alloc);
    push_shown(text, &mut out)?;
    Ok(out)
}

/// Adds a text as it is shown to another. Where an allocation fails, a part of it may be there.
pub fn push_shown<A: Allocator>(text: &str, out: &mut String<A>) -> Result<(), AllocError>
    ensures { OnOk result (string_bytes out.new ≡ string_bytes out.old ++ shown_text text.now) }
{
    for c in text.chars() {
        push_char(c, out)?;
    }
    Ok(())
}

/// Whether each character of a text is seen: none is escaped by [`shown`] but backslashes, so the text
/// may be shown as it is.
pub fn is_visible(text: &str) -> bool
    ensures { result ≡ is_visible text.now }
{
    text.chars().all(|c| c == '\\' || is_plain(c))
}

// Adds one character.
fn push_char<A: Allocator>(c: char, out: &mut String<A>) -> Result<(), AllocError>
    ensures { OnOk result
        (string_bytes out.new ≡ string_bytes out.old ++ encode_utf8_all (shown_char c)) }
{
    match c {
        '\0' => out.push_str("\\0"),
        '\t' => out.push_str("\\t"),
        '\n' => out.push_str("\\n"),
        '\r' => out.push_str("\\r"),
        '\\' => out.push_str("\\\\"),
        c if is_plain(c) => out.push(c),
        c => push_code(c, out),
    }
}

// Adds the code of a character.
fn push_code<A: Allocator>(c: char, out: &mut String<A>) -> Result<(), AllocError>
    ensures { OnOk result
        (string_bytes out.new ≡ string_bytes out.old ++ encode_utf8_all (escape_unicode c)) }
{
    for digit in c.escape_unicode() {
        out.push(digit)?;
    }
    Ok(())
}

// Whether a character is shown as it is.
fn is_plain(c: char) -> bool
    ensures { result ≡ is_plain c }
{
    match c {
        '\\' => false,
        ' '..='~' => true,
        '\0'..='\u{7f}' => false,
        c => !is_unseen(c),
    }
}

// Whether a character beyond ASCII is not seen: another blank, a control or format character, or one
// that means nothing yet.
fn is_unseen(c: char) -> bool
    ensures { result ≡ is_unseen c }
{
    let category = GeneralCategory::for_char(c);
    GeneralCategoryGroup::Other.contains(category)
        || GeneralCategoryGroup::Separator.contains(category)
}
