//! The lines of a text, and the words of a line.
//!
//! A line ends at a newline or at the end of the text. Blanks and tabs separate words, and
//! nothing else does: a carriage return is a byte of a word like any other.

ghost use Rattle.std.specs.Prelude.{◌≡◌, map, IfOk};
ghost use Rattle.p9_base.specs.Line.{ends_empty, is_skipped as skip_test, lines_of, whole_lines};
ghost use Rattle.p9_base.specs.Line.{words_of};

use std::alloc::{AllocError, Allocator};

/// The lines of a text, in order and without their newlines. Where the text ends with a newline,
/// an empty line follows it. The only error is a failed allocation.
pub fn lines<A: Allocator + Copy>(alloc: A, text: &str) -> Result<Vec<&str, A>, AllocError>
    ensures { IfOk result (λ found. map (λ line. line.now) found.items ≡ lines_of text.now) }
{
    text.split('\n').collect(alloc)
}

/// The lines of a text, in order and without their newlines, as [`lines`] has them, but for the empty
/// one that follows a newline at the text's end. The only error is a failed allocation.
#[tactic(auto, unfolding(crate::specs::Line::whole_lines))]
pub fn whole_lines<A: Allocator + Copy>(alloc: A, text: &str) -> Result<Vec<&str, A>, AllocError>
    ensures { IfOk result (λ found. map (λ line. line.now) found.items ≡ whole_lines text.now) }
{
    let mut lines = lines(alloc, text)?;
    if ends_empty(lines.as_slice()) {
        lines.pop();
    }
    Ok(lines)
}

// Whether the last line is empty.
fn ends_empty(lines: &[&str]) -> bool
    ensures { result ≡ ends_empty (map (λ line. line.now) lines.now) }
{
    match lines {
        [.., last] => last.is_empty(),
        [] => false,
    }
}

/// The words of a line, in order: the longest runs of bytes that are neither a blank nor a tab. The
/// only error is a failed allocation.
pub fn words<A: Allocator + Copy>(alloc: A, line: &str) -> Result<Vec<&str, A>, AllocError>
    ensures { IfOk result (λ found. map (λ word. word.now) found.items ≡ words_of line.now) }
{
    line.split([' ', '\t'])
        .filter(|word| !word.is_empty())
        .collect(alloc)
}

/// Whether a line of these words is skipped: it has none, or its first begins with `#`.
pub fn is_skipped(words: &[&str]) -> bool
    ensures { result ≡ skip_test (map (λ word. word.now) words.now) }
{
    match words {
        [] => true,
        [first, ..] => first.starts_with('#'),
    }
}
