//! Text in SVG.

ghost use Rattle.std.specs.Prelude.{◌≡◌, ◌++◌, ◌<◌, All, IfOk, OnOk, encode_utf8, encode_utf8_all, map};
ghost use Rattle.std.specs.Str.{chars};
ghost use Rattle.std.specs.String.{string_bytes};
ghost use Rattle.p9_map.specs.Escape.{IsHarmless, escaped_char, escaped_text, shown};
ghost use Rattle.p9_map.specs.Escape.{unescaped};

use p9_base::NoMemory;
use std::alloc::{AllocError, Allocator};

/// The text as it is written in SVG: `&`, `<`, `>` and `"` as entities. A control character, and a
/// character that SVG may not have, becomes `�`.
///
/// So it has no `<`, `>` or `"`, and who reads it as SVG sees the text, with these replaced. The only
/// error is that an allocation fails.
pub fn escaped<A: Allocator + Copy>(alloc: A, text: &str) -> Result<String<A>, NoMemory>
    ensures written { IfOk result (λ out. string_bytes out ≡ escaped_text text.now) }
    ensures harmless { IfOk result (λ out. All IsHarmless (chars (string_bytes out))) }
    ensures read { IfOk result (λ out. unescaped (chars (string_bytes out))
        ≡ map shown (chars text.now)) }
{
    let mut out = String::new(alloc);
    for c in text.chars() {
        push_escaped(c, &mut out)?;
    }
    Ok(out)
}

// Adds one character.
fn push_escaped<A: Allocator>(c: char, out: &mut String<A>) -> Result<(), AllocError>
    ensures { OnOk result
        (string_bytes out.new ≡ string_bytes out.old ++ encode_utf8_all (escaped_char c)) }
{
    match c {
        '&' => out.push_str("&amp;"),
        '<' => out.push_str("&lt;"),
        '>' => out.push_str("&gt;"),
        '"' => out.push_str("&quot;"),
        c => out.push(shown(c)),
    }
}

// The character that stands for one.
fn shown(c: char) -> char
    ensures { result ≡ shown c }
{
    let code = c as u32;
    if code <= 31 || (127 <= code && code <= 159) || code == 0xfffe || code == 0xffff {
        '\u{fffd}'
    } else {
        c
    }
}
