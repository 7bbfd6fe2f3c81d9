//! Messages in words of which the tag and the msize may be left out.

ghost use Rattle.std.specs.Prelude.{◌≡◌, ◌≤◌, ◌-◌, ◌^◌, IfSome, option_map};
ghost use Rattle.p9_wire.specs.Fields.{number};
ghost use Rattle.p9_words.specs.Form.{bytes_of};
ghost use Rattle.p9_words.specs.Reading.{Gives, put_after};
ghost use Rattle.p9_words.specs.Omitted.{tag_for, omitted, is_next, given_at, given_from};
ghost use Rattle.p9_words.specs.Omitted.{message_of_words};

use crate::bytes::put_number;
use crate::class::{Class, prefix_len, skip_blanks};
use crate::error::ReadError;
use crate::field::take_field;
use crate::form::{Form, Width};
use crate::key::Key;
use crate::line::finish;
use crate::verb::Verb;
use crate::word::take_verb;
use p9_wire::NOTAG;
use std::alloc::Allocator;

// The msize of a version that names none.
const DEFAULT_MSIZE: u64 = 8192;

/// The frame of the message that words say, as [`crate::read_words`] reads them, but that the tag
/// and the msize may be left out, each with its word. The tag is then `turn`, and 65,535 for a
/// version, and the msize is 8,192. The error is the first place where something else was
/// expected, by how many bytes are left there, or a failed allocation.
#[tactic(auto, unfolding(crate::specs::Omitted::message_of_words))]
pub fn take_message<A: Allocator + Copy>(
    alloc: A,
    turn: u16,
    text: &[u8],
) -> Result<Vec<u8, A>, ReadError>
    ensures { Gives (λ frame. frame.items) result (message_of_words turn text.now) }
{
    let (verb, rest) = take_verb(text)?;
    let tag = tag_for(verb, turn);
    let mut bytes = Vec::new(alloc);
    let rest = take_given(tag, (Key::Tag, Form::Number(Width::U16)), rest, &mut bytes)?;
    let rest = take_all_given(tag, verb.fields(), rest, &mut bytes)?;
    finish(alloc, verb, bytes.as_slice(), rest)
}

// The tag of a message whose turn this is.
fn tag_for(verb: Verb, turn: u16) -> u16
    ensures { result ≡ tag_for verb turn }
{
    match verb {
        Verb::Tversion | Verb::Rversion => NOTAG,
        _ => turn,
    }
}

// The number of a field that is left out, where it may be, with its width.
fn omitted(tag: u16, key: Key) -> Option<(Width, u64)>
    ensures number { option_map (λ n. number (bytes_of n.0) n.1) result ≡ omitted tag key }
    ensures fits { IfSome result (λ n. n.1 ≤ 256 ^ bytes_of n.0 - 1) }
{
    match key {
        Key::Tag => Some((Width::U16, u64::from(tag))),
        Key::Msize => Some((Width::U32, DEFAULT_MSIZE)),
        _ => None,
    }
}

// Whether this word is the next.
#[tactic(auto, unfolding(crate::specs::Omitted::is_next))]
fn is_next(key: Key, text: &[u8]) -> bool
    ensures { result ≡ is_next key text.now }
{
    let here = skip_blanks(text);
    &here[..prefix_len(Class::Filled, here)] == key.text().as_bytes()
}

// Puts the bytes of a field, or of what stands for it where its word is not the next, after those
// of `out`.
#[tactic(auto, unfolding(crate::specs::Omitted::given_at))]
fn take_given<'a, A: Allocator + Copy>(
    tag: u16,
    field: (Key, Form),
    text: &'a [u8],
    out: &mut Vec<u8, A>,
) -> Result<&'a [u8], ReadError>
    ensures { Gives (λ rest. (out.new.items, rest.now)) result
        (put_after out.old.items (given_at tag field text.now)) }
{
    if is_next(field.0, text) {
        return take_field(field, text, out);
    }
    match omitted(tag, field.0) {
        Some((width, n)) => {
            put_number(width, n, out)?;
            Ok(text)
        }
        None => take_field(field, text, out),
    }
}

// Puts the bytes of one field after the other, or of what stands for it, after those of `out`.
fn take_all_given<'a, A: Allocator + Copy>(
    tag: u16,
    fields: &[(Key, Form)],
    text: &'a [u8],
    out: &mut Vec<u8, A>,
) -> Result<&'a [u8], ReadError>
    ensures { Gives (λ rest. (out.new.items, rest.now)) result
        (given_from tag out.old.items fields.now text.now) }
{
    let mut rest = text;
    for field in fields {
        rest = take_given(tag, *field, rest, out)?;
    }
    Ok(rest)
}
