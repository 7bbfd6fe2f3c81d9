//! Words of lines.

ghost use Rattle.std.specs.Prelude.{◌≡◌};
ghost use Rattle.std.specs.List.{list_any};
ghost use Rattle.p9_world.specs.Word.{ends_word, is_plain};

/// Whether a text is one word in a line: it has no blank, no tab and no newline.
pub(crate) fn is_plain(text: &str) -> bool
    ensures { result ≡ is_plain text.now }
{
    !has_end(text)
}

// Whether a blank, a tab or a newline is among the bytes.
fn has_end(text: &str) -> bool
    ensures { result ≡ list_any ends_word text.now }
{
    text.bytes().any(|b| b == b' ' || b == b'\t' || b == b'\n')
}
