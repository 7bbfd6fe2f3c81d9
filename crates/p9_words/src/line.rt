//! A line of words, and the frame of the message that it says.

ghost use Rattle.std.specs.Prelude.{◌≡◌, ◌<◌, ◌+◌, ◌^◌, ◌++◌, IfOk, IfErr, length};
ghost use Rattle.p9_words.specs.Reading.{Gives, frame_at, frame_of_words, framed};
ghost use Rattle.p9_words.specs.Line.{IsWordsError};
ghost use Rattle.p9_words.specs.Verb.{type_of};

use crate::bytes::put_number;
use crate::class::skip_blanks;
use crate::error::{Expected, ReadError, WordsError, unexpected};
use crate::field::{take_field, take_fields};
use crate::form::{Form, Width};
use crate::key::Key;
use crate::verb::Verb;
use crate::word::take_verb;
use p9_base::NoMemory;
use std::alloc::Allocator;

/// The frame of the message that a line says, in the words that [`crate::print_request`] and
/// [`crate::print_reply`] print. Any number of blanks and tabs may be before and after a word.
/// docs/WORDS.md has the grammar.
///
/// [`WordsError::Unexpected`] is the first place where something else was expected, and
/// [`WordsError::NoMemory`] a failed allocation.
pub fn read_words<A: Allocator + Copy>(alloc: A, line: &str) -> Result<Vec<u8, A>, WordsError>
    ensures frame { IfOk result (λ frame. frame_of_words line.now ≡ Ok frame.items) }
    ensures error { IfErr result (IsWordsError line.now (frame_of_words line.now)) }
{
    let text = line.as_bytes();
    match read_frame(alloc, text) {
        Ok(frame) => Ok(frame),
        Err(ReadError::NoMemory) => Err(WordsError::NoMemory),
        Err(ReadError::Refused(fault)) => Err(WordsError::Unexpected {
            at: line.len().saturating_sub(fault.left),
            expected: fault.expected,
        }),
    }
}

// The frame of the message that a line says.
#[tactic(auto, unfolding(crate::specs::Reading::frame_of_words))]
fn read_frame<A: Allocator + Copy>(alloc: A, text: &[u8]) -> Result<Vec<u8, A>, ReadError>
    ensures { Gives (λ frame. frame.items) result (frame_of_words text.now) }
{
    let (verb, rest) = take_verb(text)?;
    let mut bytes = Vec::new(alloc);
    let rest = take_field((Key::Tag, Form::Number(Width::U16)), rest, &mut bytes)?;
    let rest = take_fields(verb.fields(), rest, &mut bytes)?;
    finish(alloc, verb, bytes.as_slice(), rest)
}

/// The frame of these bytes, where the line ends here and four bytes hold its size.
#[tactic(auto, unfolding(crate::specs::Reading::frame_at))]
pub fn finish<A: Allocator + Copy>(
    alloc: A,
    verb: Verb,
    bytes: &[u8],
    text: &[u8],
) -> Result<Vec<u8, A>, ReadError>
    ensures { Gives (λ frame. frame.items) result (frame_at verb bytes.now text.now) }
{
    let here = skip_blanks(text);
    if !here.is_empty() {
        return Err(unexpected(Expected::End, here));
    }
    if bytes.len() >= (1 << 32) - 5 {
        return Err(unexpected(Expected::ShortMessage, here));
    }
    Ok(frame(alloc, verb.kind(), bytes)?)
}

// The frame of a message of this type, of which these are the bytes after the type.
fn frame<A: Allocator + Copy>(alloc: A, kind: u8, bytes: &[u8]) -> Result<Vec<u8, A>, NoMemory>
    requires { 5 + length bytes.now < 2 ^ 32 }
    ensures { IfOk result (λ frame. frame.items ≡ framed kind bytes.now) }
{
    let mut frame = Vec::new(alloc);
    put_number(Width::U32, 5 + bytes.len() as u64, &mut frame)?;
    put_number(Width::U8, u64::from(kind), &mut frame)?;
    frame.extend_from_slice(bytes)?;
    Ok(frame)
}
