//! Lines of a script in words.

ghost use Rattle.std.specs.Prelude.{◌≡◌};
ghost use Rattle.p9_words.specs.Reading.{Gives, first_word, behind_word};
ghost use Rattle.p9_exchange.specs.Line.{line_view, short_at, end_at, bytes_at, session_at};
ghost use Rattle.p9_exchange.specs.Line.{open_at};
ghost use Rattle.p9_exchange.specs.Line.{close_at, msg_at, words_at, is_skipped, line_at};
ghost use Rattle.p9_exchange.specs.Line.{turn_behind};

use hex::FromHexError;
use p9_words::{
    Base, Class, Expected, ReadError, prefix_len, skip_blanks, take_message, take_number,
    unexpected,
};
use std::alloc::Allocator;

/// What a line of a script says. Each number has 32 bits: a session's name, and a reading of the
/// clock in seconds.
#[derive(Drop)]
pub enum Line<A: Allocator> {
    /// Nothing: it is blank, or a comment.
    Skipped,
    /// A session of this name is opened.
    Open(u32),
    /// The session of this name gets a frame at this reading of the clock.
    Message(u32, u32, Vec<u8, A>),
    /// The session of this name is closed at this reading of the clock.
    Close(u32, u32),
}

impl<A: Allocator> Line<A> {
    /// The tag whose turn comes after the line, where this one's is the turn at it.
    pub fn turn_behind(&self, turn: u16) -> u16
        ensures { result ≡ turn_behind (line_view self.now) turn }
    {
        match self {
            Line::Skipped => turn,
            Line::Open(_) => 0,
            Line::Message(..) => if turn < 65_534 { turn + 1 } else { 0 },
            Line::Close(..) => turn,
        }
    }
}

// A session's name, or a reading of the clock.
fn take_short(text: &[u8]) -> Result<(u32, &[u8]), ReadError>
    ensures { Gives (λ x. (x.0, x.1.now)) result (short_at text.now) }
{
    let (n, rest) = take_number(Base::Decimal, u32::MAX as u64, text)?;
    Ok((n as u32, rest))
}

// The line ends here.
#[tactic(auto, unfolding(crate::specs::Line::end_at))]
fn take_end(text: &[u8]) -> Result<(), ReadError>
    ensures { Gives (λ x. x) result (end_at text.now) }
{
    let here = skip_blanks(text);
    if here.is_empty() {
        Ok(())
    } else {
        Err(unexpected(Expected::End, here))
    }
}

// The word at the front, and what follows it.
fn split_word(text: &[u8]) -> (&[u8], &[u8])
    ensures word { result.0.now ≡ first_word text.now }
    ensures rest { result.1.now ≡ behind_word text.now }
{
    text.split_at(prefix_len(Class::Filled, text))
}

// The bytes that a word of hexadecimal digits writes.
#[tactic(auto, unfolding(crate::specs::Line::bytes_at))]
fn take_bytes<A: Allocator + Copy>(alloc: A, text: &[u8]) -> Result<(Vec<u8, A>, &[u8]), ReadError>
    ensures { Gives (λ x. (x.0.items, x.1.now)) result (bytes_at text.now) }
{
    let here = skip_blanks(text);
    let (word, rest) = split_word(here);
    if word.is_empty() {
        return Err(unexpected(Expected::Pairs, here));
    }
    match hex::decode(alloc, word) {
        Ok(bytes) => Ok((bytes, rest)),
        Err(FromHexError::OutOfMemory) => Err(ReadError::NoMemory),
        Err(_) => Err(unexpected(Expected::Pairs, here)),
    }
}

// The name of a session that begins a line.
#[tactic(auto, unfolding(crate::specs::Line::session_at))]
fn take_session(text: &[u8]) -> Result<(u32, &[u8]), ReadError>
    ensures { Gives (λ x. (x.0, x.1.now)) result (session_at text.now) }
{
    if prefix_len(Class::Digit(Base::Decimal), text) == 0 {
        return Err(unexpected(Expected::Event, text));
    }
    take_short(text)
}

// What follows `open`.
#[tactic(auto, unfolding(crate::specs::Line::open_at))]
fn take_open<A: Allocator + Copy>(text: &[u8]) -> Result<Line<A>, ReadError>
    ensures { Gives line_view result (open_at text.now) }
{
    let (session, rest) = take_short(text)?;
    take_end(rest)?;
    Ok(Line::Open(session))
}

// What follows `close`.
#[tactic(auto, unfolding(crate::specs::Line::close_at))]
fn take_close<A: Allocator + Copy>(text: &[u8]) -> Result<Line<A>, ReadError>
    ensures { Gives line_view result (close_at text.now) }
{
    let (session, rest) = take_short(text)?;
    let (now, rest) = take_short(rest)?;
    take_end(rest)?;
    Ok(Line::Close(session, now))
}

// What follows `msg`.
#[tactic(auto, unfolding(crate::specs::Line::msg_at))]
fn take_msg<A: Allocator + Copy>(alloc: A, text: &[u8]) -> Result<Line<A>, ReadError>
    ensures { Gives line_view result (msg_at text.now) }
{
    let (session, rest) = take_short(text)?;
    let (now, rest) = take_short(rest)?;
    let (frame, rest) = take_bytes(alloc, rest)?;
    take_end(rest)?;
    Ok(Line::Message(session, now, frame))
}

// A message in words, whose turn is this tag.
#[tactic(auto, unfolding(crate::specs::Line::words_at))]
fn take_words<A: Allocator + Copy>(alloc: A, turn: u16, text: &[u8]) -> Result<Line<A>, ReadError>
    ensures { Gives line_view result (words_at turn text.now) }
{
    let (session, rest) = take_session(text)?;
    let (now, rest) = take_short(rest)?;
    let frame = take_message(alloc, turn, rest)?;
    Ok(Line::Message(session, now, frame))
}

// Whether what begins so is passed over.
fn is_skipped(text: &[u8]) -> bool
    ensures { result ≡ is_skipped text.now }
{
    match text {
        [] => true,
        [first, ..] => *first == b'#',
    }
}

/// What a line says, where a message's turn is this tag. The error is the first place where
/// something else was expected, by how many bytes are left there, or a failed allocation.
#[tactic(auto, unfolding(crate::specs::Line::line_at))]
pub fn take_line<A: Allocator + Copy>(
    alloc: A,
    turn: u16,
    text: &[u8],
) -> Result<Line<A>, ReadError>
    ensures { Gives line_view result (line_at turn text.now) }
{
    let here = skip_blanks(text);
    if is_skipped(here) {
        return Ok(Line::Skipped);
    }
    let (word, rest) = split_word(here);
    if "open".as_bytes() == word {
        take_open(rest)
    } else if "msg".as_bytes() == word {
        take_msg(alloc, rest)
    } else if "close".as_bytes() == word {
        take_close(rest)
    } else {
        take_words(alloc, turn, here)
    }
}
