//! An input with a certificate in its place.

ghost use Rattle.std.specs.Prelude.{◌≡◌, ◌≤◌, ◌++◌, IfOk, OnOk, length, map, not};
ghost use Rattle.std.specs.List.{flat_map, prefix_len};
ghost use Rattle.std.specs.String.{string_bytes};
ghost use Rattle.p9_prepared.specs.Bundle.{ended};
ghost use Rattle.p9_seal.specs.Text.{begins_certificate_or_script, begins_script, lines_after};
ghost use Rattle.p9_seal.specs.Text.{lines_before, sealed_text};

use p9_base::{NoMemory, whole_lines};
use p9_prepared::Section;
use std::alloc::Allocator;

/// The input with this text as the section of its certificate. One that is there is replaced, and
/// else the section goes before that of the script, or to the end. All other lines are as they were,
/// each with a newline. The text is to be empty or to end with a newline. The only error is that an
/// allocation fails.
pub(crate) fn with_certificate<A: Allocator + Copy>(
    alloc: A,
    input: &str,
    certificate: &str,
) -> Result<String<A>, NoMemory>
    ensures { IfOk result (λ text.
        string_bytes text ≡ sealed_text input.now certificate.now) }
{
    let lines = whole_lines(alloc, input)?;
    let lines = lines.as_slice();
    let mut text = String::new(alloc);
    push_lines(lines_before(lines), &mut text)?;
    push_line(Section::Cert.head(), &mut text)?;
    text.push_str(certificate)?;
    push_lines(lines_after(lines), &mut text)?;
    Ok(text)
}

// Whether the line begins a script.
fn begins_script(line: &str) -> bool
    ensures { result ≡ begins_script line.now }
{
    line == Section::Script.head()
}

// Whether the line begins a certificate, or a script, which is after it.
fn begins_certificate_or_script(line: &str) -> bool
    ensures { result ≡ begins_certificate_or_script line.now }
{
    line == Section::Cert.head() || begins_script(line)
}

// How many lines are before the place of a certificate.
fn count_before(lines: &[&str]) -> usize
    ensures count { result ≡ prefix_len (λ line. not (begins_certificate_or_script line))
        (map (λ line. line.now) lines.now) }
    ensures within { result ≤ length lines.now }
{
    lines
        .iter()
        .take_while(|line| !begins_certificate_or_script(line))
        .count()
}

// How many lines are before the script.
fn count_to_script(lines: &[&str]) -> usize
    ensures count { result ≡ prefix_len (λ line. not (begins_script line))
        (map (λ line. line.now) lines.now) }
    ensures within { result ≤ length lines.now }
{
    lines.iter().take_while(|line| !begins_script(line)).count()
}

// The lines before the place of a certificate.
fn lines_before<'a, 'b>(lines: &'a [&'b str]) -> &'a [&'b str]
    ensures { map (λ line. line.now) result.now
        ≡ lines_before (map (λ line. line.now) lines.now) }
{
    &lines[..count_before(lines)]
}

// The lines after it: the script.
fn lines_after<'a, 'b>(lines: &'a [&'b str]) -> &'a [&'b str]
    ensures { map (λ line. line.now) result.now ≡ lines_after (map (λ line. line.now) lines.now) }
{
    &lines[count_to_script(lines)..]
}

// Adds a line to a text.
fn push_line<A: Allocator + Copy>(line: &str, text: &mut String<A>) -> Result<(), NoMemory>
    ensures { OnOk result (string_bytes text.new ≡ string_bytes text.old ++ ended line.now) }
{
    text.push_str(line)?;
    text.push('\n')?;
    Ok(())
}

// Adds lines to a text.
fn push_lines<A: Allocator + Copy>(lines: &[&str], text: &mut String<A>) -> Result<(), NoMemory>
    ensures { OnOk result (string_bytes text.new
        ≡ string_bytes text.old ++ flat_map ended (map (λ line. line.now) lines.now)) }
{
    for line in lines {
        push_line(line, text)?;
    }
    Ok(())
}
