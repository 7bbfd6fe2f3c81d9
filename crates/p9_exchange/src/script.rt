//! A script in words, written as the script that `p9 play` reads.

ghost use Rattle.std.specs.Prelude.{◌≡◌, ◌++◌, IfErr, IfOk, OnOk, Ok, map};
ghost use Rattle.std.specs.List.{flat_map};
ghost use Rattle.std.specs.String.{string_bytes};
ghost use Rattle.p9_base.specs.Line.{whole_lines};
ghost use Rattle.p9_exchange.specs.Line.{line_view, line_at};
ghost use Rattle.p9_exchange.specs.Refusal.{IsStop, Makes, or_refused};
ghost use Rattle.p9_exchange.specs.Script.{ended, line_text, with_line, written_behind};
ghost use Rattle.p9_exchange.specs.Script.{script_of_lines, script_of_words, writer_view};

use crate::input::{SCRIPT, split_behind, text_of};
use crate::line::{Line, take_line};
use crate::refusal::{Refusal, Stop};
use p9_base::{NoMemory, whole_lines};
use p9_words::ReadError;
use std::alloc::{AllocError, Allocator};

/// What a line of this number says, where a message's turn is this tag.
pub fn read_line<A: Allocator + Copy>(
    alloc: A,
    number: usize,
    turn: u16,
    line: &str,
) -> Result<Line<A>, Stop>
    ensures { Makes line_view result (or_refused (number, line.now) (line_at turn line.now)) }
{
    match take_line(alloc, turn, line.as_bytes()) {
        Ok(said) => Ok(said),
        Err(ReadError::NoMemory) => Err(Stop::NoMemory),
        Err(ReadError::Refused(fault)) => Err(Stop::Refused(Refusal::BadLine {
            line: number,
            at: line.len().saturating_sub(fault.left),
            expected: fault.expected,
        })),
    }
}

// An event as `p9 play` reads it; a line that says none is as it was.
fn line_text<A: Allocator + Copy>(
    alloc: A,
    line: &str,
    said: &Line<A>,
) -> Result<String<A>, AllocError>
    ensures { IfOk result (λ text. string_bytes text ≡ line_text line.now (line_view said.now)) }
{
    match said {
        Line::Skipped => String::from_str(alloc, line),
        Line::Open(session) => format!(in alloc; "open {session}"),
        Line::Message(session, now, frame) => {
            let digits = hex::encode(alloc, frame.as_slice())?;
            format!(in alloc; "msg {session} {now} {digits}")
        }
        Line::Close(session, now) => format!(in alloc; "close {session} {now}"),
    }
}

// Adds a line to a text.
fn push_line<A: Allocator + Copy>(line: &str, text: &mut String<A>) -> Result<(), NoMemory>
    ensures { OnOk result (string_bytes text.new ≡ string_bytes text.old ++ ended line.now) }
{
    text.push_str(line)?;
    text.push('\n')?;
    Ok(())
}

// What is written so far, and the tag whose turn is next.
#[derive(Drop)]
struct Writer<A: Allocator> {
    turn: u16,
    text: String<A>,
}

impl<A: Allocator + Copy> Writer<A> {
    // Writes the line of this number.
    fn write(&mut self, alloc: A, number: usize, line: &str) -> Result<(), Stop>
        ensures ok { OnOk result
            (with_line (writer_view self.old) (number, line.now) ≡ Ok (writer_view self.new)) }
        ensures stop { IfErr result
            (IsStop (with_line (writer_view self.old) (number, line.now))) }
    {
        let said = read_line(alloc, number, self.turn, line)?;
        let text = line_text(alloc, line, &said)?;
        push_line(text.as_str(), &mut self.text)?;
        self.turn = said.turn_behind(self.turn);
        Ok(())
    }
}

// The lines, each with its newline.
fn copied<A: Allocator + Copy>(alloc: A, lines: &[&str]) -> Result<String<A>, NoMemory>
    ensures { IfOk result (λ text.
        string_bytes text ≡ flat_map ended (map (λ line. line.now) lines.now)) }
{
    let mut text = String::new(alloc);
    for line in lines {
        push_line(line, &mut text)?;
    }
    Ok(text)
}

// What is written after a text for the lines of a script.
#[tactic(auto, unfolding(crate::specs::Script::written_behind))]
fn written_behind<A: Allocator + Copy>(
    alloc: A,
    text: String<A>,
    lines: &[&str],
) -> Result<String<A>, Stop>
    ensures { Makes string_bytes result
        (written_behind (string_bytes text) (map (λ line. line.now) lines.now)) }
{
    let mut writer = Writer { turn: 0, text };
    for (position, line) in lines.iter().enumerate() {
        writer.write(alloc, position + 1, line)?;
    }
    let Writer { turn: _, text } = writer;
    Ok(text)
}

// What is written of the lines of an input: those up to the script's head are as they were.
fn script_of_lines<A: Allocator + Copy>(alloc: A, lines: &[&str]) -> Result<String<A>, Stop>
    ensures { Makes string_bytes result
        (script_of_lines (map (λ line. line.now) lines.now)) }
{
    let (head, script) = split_behind(SCRIPT, lines);
    let text = copied(alloc, head)?;
    written_behind(alloc, text, script)
}

/// The input with its script as `p9 play` reads it.
///
/// The input is a bundle, whose script may be in words. The lines up to `%% script` are copied as
/// they are. After it a line is `open S`, `close S NOW`, `msg S NOW HEX`, or `S NOW` and a message
/// in words, of which the tag and the msize may be left out; it is written as the line of the
/// script that says the same. Blank lines and comments are copied. So each line of the output has
/// the number of its line in the input.
///
/// A tag that is left out counts the messages since the last `open`, from 0; for a version it is
/// 65,535. The msize is 8,192 where it is left out.
///
/// [`Refusal::NotUtf8`] says that the input is no text, [`Refusal::BadLine`] is the first bad line of
/// the script, and [`Stop::NoMemory`] says that an allocation failed.
#[tactic(auto, unfolding(crate::specs::Script::script_of_words))]
pub fn write_script<A: Allocator + Copy>(alloc: A, input: &[u8]) -> Result<String<A>, Stop>
    ensures { Makes string_bytes result (script_of_words input.now) }
{
    let Some(text) = text_of(input) else {
        return Err(Stop::Refused(Refusal::NotUtf8));
    };
    let lines = whole_lines(alloc, text)?;
    script_of_lines(alloc, lines.as_slice())
}
