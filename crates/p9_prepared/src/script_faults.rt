//! All bad lines of a script.

ghost use Rattle.std.specs.Prelude.{◌≡◌, IfOk, map, option_map, slice_get};
ghost use Rattle.std.specs.Result.{result_err};
ghost use Rattle.p9_base.specs.Statement.{statement_view};
ghost use Rattle.p9_prepared.specs.Script.{script_of};
ghost use Rattle.p9_prepared.specs.ScriptFaults.{bad_closing_word, bad_event_in, bad_events_in};
ghost use Rattle.p9_prepared.specs.ScriptFaults.{bad_message_word, bad_opening_word, bad_word};

use crate::script::{event, frame_of_hex, short_number};
use p9_base::{NoMemory, Statement, statements};
use std::alloc::Allocator;

/// What is expected of a line of a script.
pub const EVENT_EXPECTED: &str = "open S, msg S NOW HEX or close S NOW";

/// A line of a script that says no event.
#[derive(Clone, Copy, Debug, PartialEq, Eq)]
pub struct BadEvent {
    /// Its number in its text, from 1.
    pub line: u64,
    /// The place of the word that is wrong, among those of the line, from 0. Where a word is missing,
    /// that is the place behind the last one.
    pub word: usize,
}

/// All lines of a script that say no event, in order. Each line is read by itself, so the first of
/// them is the one for which [`read_script`](crate::read_script) refuses the text. The only error is
/// a failed allocation.
pub fn bad_events<A: Allocator + Copy>(alloc: A, text: &str) -> Result<Vec<BadEvent, A>, NoMemory>
    ensures all { IfOk result (λ found. found.items ≡ bad_events_in text.now) }
    ensures first { IfOk result (λ found.
        option_map (λ bad. bad.line) (slice_get found.items 0) ≡ result_err (script_of text.now)) }
{
    let mut found = Vec::new(alloc);
    for statement in &statements(alloc, text)? {
        if let Some(bad) = bad_event(alloc, statement)? {
            found.push(bad)?;
        }
    }
    Ok(found)
}

// A statement, if it says no event.
fn bad_event<A: Allocator + Copy>(
    alloc: A,
    statement: &Statement<'_, A>,
) -> Result<Option<BadEvent>, NoMemory>
    ensures { IfOk result (λ bad. bad ≡ bad_event_in (statement_view statement.now)) }
{
    let words = statement.words.as_slice();
    match event(alloc, words)? {
        Some(_) => Ok(None),
        None => Ok(Some(BadEvent {
            line: statement.line,
            word: bad_word(alloc, words)?,
        })),
    }
}

// Which word of a line that says no event is wrong.
fn bad_word<A: Allocator + Copy>(alloc: A, words: &[&str]) -> Result<usize, NoMemory>
    ensures { IfOk result (λ word. word ≡ bad_word (map (λ word. word.now) words.now)) }
{
    let [verb, words @ ..] = words else {
        return Ok(0);
    };
    if *verb == "open" {
        Ok(1 + bad_opening_word(words))
    } else if *verb == "msg" {
        Ok(1 + bad_message_word(alloc, words)?)
    } else if *verb == "close" {
        Ok(1 + bad_closing_word(words))
    } else {
        Ok(0)
    }
}

// Which of the words behind `open` is wrong.
fn bad_opening_word(words: &[&str]) -> usize
    ensures { result ≡ bad_opening_word (map (λ word. word.now) words.now) }
{
    match words {
        [name, ..] if short_number(name).is_none() => 0,
        [_, ..] => 1,
        [] => 0,
    }
}

// Which of the words behind `close` is wrong.
fn bad_closing_word(words: &[&str]) -> usize
    ensures { result ≡ bad_closing_word (map (λ word. word.now) words.now) }
{
    match words {
        [name, ..] if short_number(name).is_none() => 0,
        [_, clock, ..] if short_number(clock).is_none() => 1,
        [_, _, ..] => 2,
        [_] => 1,
        [] => 0,
    }
}

// Which of the words behind `msg` is wrong.
fn bad_message_word<A: Allocator + Copy>(alloc: A, words: &[&str]) -> Result<usize, NoMemory>
    ensures { IfOk result (λ word. word ≡ bad_message_word (map (λ word. word.now) words.now)) }
{
    match words {
        [name, ..] if short_number(name).is_none() => Ok(0),
        [_, clock, ..] if short_number(clock).is_none() => Ok(1),
        [_, _, digits, ..] => match frame_of_hex(alloc, digits)? {
            Some(_) => Ok(3),
            None => Ok(2),
        },
        [_, _] => Ok(2),
        [_] => Ok(1),
        [] => Ok(0),
    }
}
