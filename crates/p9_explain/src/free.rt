//! What is said freely. Of it only lines are told that begin as no line does of which more is promised.

ghost use Rattle.std.specs.Prelude.{◌≡◌, ◌++◌, IfOk, OnOk, filter, map};
ghost use Rattle.std.specs.List.{flat_map};
ghost use Rattle.std.specs.String.{string_bytes};
ghost use Rattle.p9_base.specs.Line.{lines_of};
ghost use Rattle.p9_explain.specs.Free.{ended, first_line, free_lines, is_free};

use p9_base::{NoMemory, lines};
use std::alloc::{AllocError, Allocator};

/// The first line of what is said, without its newline. The only error is that an allocation fails.
pub(crate) fn first_line<A: Allocator + Copy>(alloc: A, said: &str) -> Result<String<A>, AllocError>
    ensures { IfOk result (λ line. string_bytes line ≡ first_line said.now) }
{
    match lines(alloc, said)?.as_slice() {
        [line, ..] => String::from_str(alloc, line),
        [] => Ok(String::new(alloc)),
    }
}

/// The first line of what is said, which is dropped. The only error is that an allocation fails.
pub(crate) fn into_first_line<A: Allocator + Copy>(said: String<A>) -> Result<String<A>, NoMemory>
    ensures { IfOk result (λ line. string_bytes line ≡ first_line (string_bytes said)) }
{
    Ok(first_line(*said.allocator(), said.as_str())?)
}

/// Adds the free lines of what is said: hints, how a leak is mended, further leaks, and lines that are
/// indented. The only error is that an allocation fails; a part of them may be there then.
pub(crate) fn push_free<A: Allocator + Copy>(
    said: &str,
    text: &mut String<A>,
) -> Result<(), NoMemory>
    ensures { OnOk result
        (string_bytes text.new ≡ string_bytes text.old ++ free_lines said.now) }
{
    let lines = kept_lines(*text.allocator(), said)?;
    push_lines(lines.as_slice(), text)
}

// The lines that are free.
fn kept_lines<A: Allocator + Copy>(alloc: A, said: &str) -> Result<Vec<&str, A>, AllocError>
    ensures { IfOk result (λ found.
        map (λ line. line.now) found.items ≡ filter is_free (lines_of said.now)) }
{
    said.split('\n').filter(|line| is_free(line)).collect(alloc)
}

// Whether a line is free.
fn is_free(line: &str) -> bool
    ensures { result ≡ is_free line.now }
{
    line.starts_with("hint: ")
        || line.starts_with("mend: ")
        || line.starts_with("also: ")
        || line.starts_with("  ")
}

// Adds lines, each with a newline.
fn push_lines<A: Allocator + Copy>(lines: &[&str], text: &mut String<A>) -> Result<(), NoMemory>
    ensures { OnOk result (string_bytes text.new
        ≡ string_bytes text.old ++ flat_map ended (map (λ line. line.now) lines.now)) }
{
    for line in lines {
        push_line(line, text)?;
    }
    Ok(())
}

// Adds a line and its newline.
fn push_line<A: Allocator + Copy>(line: &str, text: &mut String<A>) -> Result<(), NoMemory>
    ensures { OnOk result (string_bytes text.new ≡ string_bytes text.old ++ ended line.now) }
{
    text.push_str(line)?;
    text.push('\n')?;
    Ok(())
}
