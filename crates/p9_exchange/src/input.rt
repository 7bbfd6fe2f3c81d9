//! An input as lines, and where its sections begin.

ghost use Rattle.std.specs.Prelude.{◌≡◌, ◌+◌, ◌≤◌, IfOk, IfNone, IfSome, length, map, take};
ghost use Rattle.std.specs.Prelude.{drop, true, false};
ghost use Rattle.std.specs.Str.{is_utf8};
ghost use Rattle.p9_exchange.specs.Input.{lines_before};

use std::alloc::{AllocError, Allocator};

/// The line that begins a script.
pub const SCRIPT: &str = "%% script";

/// The line that begins what was printed for it.
pub const REPLIES: &str = "%% replies";

/// The input as a text.
pub fn text_of(input: &[u8]) -> Option<&str>
    ensures some { IfSome result (λ text. (text.now ≡ input.now) × (is_utf8 input.now ≡ true)) }
    ensures none { IfNone result (is_utf8 input.now ≡ false) }
{
    str::from_utf8(input).ok()
}

/// How many lines are before the first one that is this head.
pub fn lines_before(head: &str, lines: &[&str]) -> usize
    ensures before { result ≡ lines_before head.now (map (λ line. line.now) lines.now) }
    ensures within { result ≤ length lines.now }
{
    for (i, line) in lines.iter().enumerate() {
        if head == *line {
            return i;
        }
    }
    lines.len()
}

/// The lines up to the first one that is this head, and those after it.
pub fn split_behind<'a, 'b>(head: &str, lines: &'a [&'b str]) -> (&'a [&'b str], &'a [&'b str])
    ensures front { result.0.now
        ≡ take (lines_before head.now (map (λ line. line.now) lines.now) + 1) lines.now }
    ensures back { result.1.now
        ≡ drop (lines_before head.now (map (λ line. line.now) lines.now) + 1) lines.now }
{
    let n = lines_before(head, lines);
    if n < lines.len() {
        lines.split_at(n + 1)
    } else {
        lines.split_at(n)
    }
}
