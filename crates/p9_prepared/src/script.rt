//! Scripts: what happens to the exporter, line by line.

ghost use Rattle.std.specs.Prelude.{◌≡◌, [], IfErr, IfOk, Ok, Some, map};
ghost use Rattle.std.specs.Option.{option_map};
ghost use Rattle.p9_step.specs.Event.{Open};
ghost use Rattle.p9_export.specs.Event.{event_view};
ghost use Rattle.p9_prepared.specs.Script.{IsScriptFault, close_event_of, event_of};
ghost use Rattle.p9_prepared.specs.Script.{frame_of_hex, message_event_of};
ghost use Rattle.p9_prepared.specs.Script.{with_event};
ghost use Rattle.p9_prepared.specs.Script.{script_of, short_number};
ghost use Rattle.p9_base.specs.Statement.{statement_view};

use hex::FromHexError;
use p9_base::{NoMemory, Statement, number, statements};
use p9_export::Event;
use std::alloc::Allocator;
use thiserror::Error;

/// Why a text is no script.
#[derive(Clone, Copy, Debug, PartialEq, Eq, Error)]
pub enum ScriptError {
    /// This line says no event. It is the first such line; lines count from 1.
    #[error("line {line} is bad")]
    BadScript { line: u64 },
    /// An allocation failed.
    #[error("out of memory")]
    NoMemory,
}

/// The events of a script, in order.
///
/// A line is `open S`, `msg S NOW HEX` or `close S NOW`: a session's name and a reading of the
/// clock are decimal numbers below 2^32, and `HEX` is one byte or more in hexadecimal digits of
/// either case. Blank lines and lines that begin with `#` are passed over, and counted. Any other
/// line is [`ScriptError::BadScript`]; a failed allocation is [`ScriptError::NoMemory`].
pub fn read_script<A: Allocator + Copy>(
    alloc: A,
    text: &str,
) -> Result<Vec<Event<A>, A>, ScriptError>
    ensures ok { IfOk result (λ events. script_of text.now ≡ Ok (map event_view events.items)) }
    ensures bad { IfErr result (IsScriptFault (script_of text.now)) }
{
    let mut events = Vec::new(alloc);
    for statement in &statements(alloc, text)? {
        let event = stated(alloc, statement)?;
        events.push(event)?;
    }
    Ok(events)
}

// The event that a statement says. One that says none is a bad line.
fn stated<A: Allocator + Copy>(
    alloc: A,
    statement: &Statement<'_, A>,
) -> Result<Event<A>, ScriptError>
    ensures ok { IfOk result (λ event.
        event_of (statement_view statement.now).1 ≡ Some (event_view event)) }
    ensures bad { IfErr result (IsScriptFault
        (with_event [] statement.now.line (event_of (statement_view statement.now).1))) }
{
    match event(alloc, statement.words.as_slice())? {
        Some(event) => Ok(event),
        None => Err(ScriptError::BadScript {
            line: statement.line,
        }),
    }
}

/// The event that the words of a line say, if they say one. The only error is a failed allocation.
pub(crate) fn event<A: Allocator + Copy>(
    alloc: A,
    words: &[&str],
) -> Result<Option<Event<A>>, NoMemory>
    ensures { IfOk result (λ event.
        option_map event_view event ≡ event_of (map (λ word. word.now) words.now)) }
{
    match words {
        [verb, name] if *verb == "open" => Ok(open_event(name)),
        [verb, name, clock, hex] if *verb == "msg" => message_event(alloc, name, clock, hex),
        [verb, name, clock] if *verb == "close" => Ok(close_event(name, clock)),
        _ => Ok(None),
    }
}

// An opening, where its name is good.
fn open_event<A: Allocator + Copy>(name: &str) -> Option<Event<A>>
    ensures { option_map event_view result ≡ option_map Open (short_number name.now) }
{
    Some(Event::Open(short_number(name)?))
}

// A message, where its three parts are good.
fn message_event<A: Allocator + Copy>(
    alloc: A,
    name: &str,
    clock: &str,
    hex: &str,
) -> Result<Option<Event<A>>, NoMemory>
    ensures { IfOk result (λ event.
        option_map event_view event ≡ message_event_of name.now clock.now hex.now) }
{
    let (Some(name), Some(clock)) = (short_number(name), short_number(clock)) else {
        return Ok(None);
    };
    match frame_of_hex(alloc, hex)? {
        Some(frame) => Ok(Some(Event::Message(name, frame, clock))),
        None => Ok(None),
    }
}

// A closing, where both of its parts are good.
fn close_event<A: Allocator + Copy>(name: &str, clock: &str) -> Option<Event<A>>
    ensures { option_map event_view result ≡ close_event_of name.now clock.now }
{
    Some(Event::Close(short_number(name)?, short_number(clock)?))
}

/// A session's name or a reading of the clock: a decimal number below 2^32.
pub(crate) fn short_number(word: &str) -> Option<u32>
    ensures { result ≡ short_number word.now }
{
    let number = number(word, 1 << 32)?;
    Some(number as u32)
}

/// The frame that hexadecimal digits write: one byte or more. The only error is a failed allocation.
pub(crate) fn frame_of_hex<A: Allocator + Copy>(
    alloc: A,
    digits: &str,
) -> Result<Option<Vec<u8, A>>, NoMemory>
    ensures { IfOk result (λ frame. option_map (λ f. f.items) frame ≡ frame_of_hex digits.now) }
{
    if digits.is_empty() {
        return Ok(None);
    }
    match hex::decode(alloc, digits) {
        Ok(frame) => Ok(Some(frame)),
        Err(FromHexError::OutOfMemory) => Err(NoMemory),
        Err(_) => Ok(None),
    }
}

/// Every error that [`p9_base::NoMemory`] is made from says that an allocation failed.
impl<E: Drop> From<E> for ScriptError
where
    NoMemory: From<E>,
{
    ghost use Rattle.std.specs.Prelude.{◌≡◌};
    ghost use Rattle.p9_prepared.specs.declared.script.ScriptError.TheVariants.{NoMemory};

    ghost from_gives = { λ _ error. error ≡ NoMemory };

    fn from(_error: E) -> ScriptError {
        ScriptError::NoMemory
    }
}
