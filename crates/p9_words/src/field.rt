//! The fields of a message: from words at the front of a text, the bytes that a frame has for them.

ghost use Rattle.p9_words.specs.Reading.{Gives, qid_at, index_at, item_at, indexed_at, items_from};
ghost use Rattle.p9_words.specs.Reading.{several_at, value_at, field_at, fields_from, put_after};

use crate::bytes::{put_counted, put_number, put_qid, put_text};
use crate::class::skip_blanks;
use crate::error::{Expected, ReadError, unexpected};
use crate::form::{Base, Form, Item, Width};
use crate::key::Key;
use crate::stat::take_stat;
use crate::word::{take_data, take_key, take_mark, take_number, take_text};
use p9_base::Qid;
use p9_wire::MAXWELEM;
use std::alloc::Allocator;

/// A qid: `(PATH VERS TYPE)`.
#[tactic(auto, unfolding(crate::specs::Reading::qid_at))]
pub fn take_qid(text: &[u8]) -> Result<(Qid, &[u8]), ReadError>
    ensures { Gives (λ x. (x.0, x.1.now)) result (qid_at text.now) }
{
    let inside = take_mark(b"(", Expected::Open, text)?;
    let (path, rest) = take_number(Base::Hexadecimal, u64::MAX, inside)?;
    let (version, rest) = take_number(Base::Decimal, u32::MAX as u64, rest)?;
    let (kind, rest) = take_number(Base::Hexadecimal, u8::MAX as u64, rest)?;
    let rest = take_mark(b")", Expected::Close, rest)?;
    let qid = Qid {
        kind: kind as u8,
        version: version as u32,
        path,
    };
    Ok((qid, rest))
}

/// An index and a colon.
#[tactic(auto, unfolding(crate::specs::Reading::index_at))]
fn take_index(index: u64, text: &[u8]) -> Result<&[u8], ReadError>
    ensures { Gives (λ x. x.now) result (index_at index text.now) }
{
    let here = skip_blanks(text);
    let (number, rest) = take_number(Base::Decimal, MAXWELEM as u64, here)?;
    if number == index {
        take_mark(b":", Expected::Colon, rest)
    } else {
        Err(unexpected(Expected::Index(index), here))
    }
}

// Puts the bytes of what follows an index after those of `out`.
#[tactic(auto, unfolding(crate::specs::Reading::item_at))]
fn take_item<'a, A: Allocator + Copy>(
    item: Item,
    text: &'a [u8],
    out: &mut Vec<u8, A>,
) -> Result<&'a [u8], ReadError>
    ensures { Gives (λ rest. (out.new.items, rest.now)) result
        (put_after out.old.items (item_at item text.now)) }
{
    match item {
        Item::Name => {
            let (name, rest) = take_text(*out.allocator(), text)?;
            put_text(name.as_slice(), out)?;
            Ok(rest)
        }
        Item::Qid => {
            let (qid, rest) = take_qid(text)?;
            put_qid(qid, out)?;
            Ok(rest)
        }
    }
}

// Puts the bytes of what follows this index after those of `out`.
#[tactic(auto, unfolding(crate::specs::Reading::indexed_at))]
fn take_indexed<'a, A: Allocator + Copy>(
    item: Item,
    index: u64,
    text: &'a [u8],
    out: &mut Vec<u8, A>,
) -> Result<&'a [u8], ReadError>
    ensures { Gives (λ rest. (out.new.items, rest.now)) result
        (put_after out.old.items (indexed_at item index text.now)) }
{
    let rest = take_index(index, text)?;
    take_item(item, rest, out)
}

// Puts the bytes of so many, each after its index, after those of `out`.
fn take_items<'a, A: Allocator + Copy>(
    item: Item,
    count: u64,
    text: &'a [u8],
    out: &mut Vec<u8, A>,
) -> Result<&'a [u8], ReadError>
    ensures { Gives (λ rest. (out.new.items, rest.now)) result
        (items_from item out.old.items 0 count text.now) }
{
    let mut rest = text;
    for i in 0..count {
        rest = take_indexed(item, i, rest, out)?;
    }
    Ok(rest)
}

// Puts the bytes of a count, and of so many, after those of `out`.
#[tactic(auto, unfolding(crate::specs::Reading::several_at))]
fn take_several<'a, A: Allocator + Copy>(
    item: Item,
    text: &'a [u8],
    out: &mut Vec<u8, A>,
) -> Result<&'a [u8], ReadError>
    ensures { Gives (λ rest. (out.new.items, rest.now)) result
        (put_after out.old.items (several_at item text.now)) }
{
    let (count, rest) = take_number(Base::Decimal, MAXWELEM as u64, text)?;
    put_number(Width::U16, count, out)?;
    take_items(item, count, rest, out)
}

// Puts the bytes of a field of this form after those of `out`.
#[tactic(auto, unfolding(crate::specs::Reading::value_at))]
fn take_value<'a, A: Allocator + Copy>(
    form: Form,
    text: &'a [u8],
    out: &mut Vec<u8, A>,
) -> Result<&'a [u8], ReadError>
    ensures { Gives (λ rest. (out.new.items, rest.now)) result
        (put_after out.old.items (value_at form text.now)) }
{
    match form {
        Form::Number(width) => {
            let (n, rest) = take_number(Base::Decimal, width.max(), text)?;
            put_number(width, n, out)?;
            Ok(rest)
        }
        Form::Octal => {
            let (n, rest) = take_number(Base::Octal, u32::MAX as u64, text)?;
            put_number(Width::U32, n, out)?;
            Ok(rest)
        }
        Form::Text => take_item(Item::Name, text, out),
        Form::Data => {
            let (data, rest) = take_data(*out.allocator(), text)?;
            put_counted(data.as_slice(), out)?;
            Ok(rest)
        }
        Form::Qid => take_item(Item::Qid, text, out),
        Form::Names => take_several(Item::Name, text, out),
        Form::Qids => take_several(Item::Qid, text, out),
        Form::Stat => take_stat(text, out),
    }
}

/// Puts the bytes of a field, which follows its word, after those of `out`, and returns the text
/// after it. After an error a part of the field may be there.
#[tactic(auto, unfolding(crate::specs::Reading::field_at))]
pub fn take_field<'a, A: Allocator + Copy>(
    field: (Key, Form),
    text: &'a [u8],
    out: &mut Vec<u8, A>,
) -> Result<&'a [u8], ReadError>
    ensures { Gives (λ rest. (out.new.items, rest.now)) result
        (put_after out.old.items (field_at field text.now)) }
{
    let rest = take_key(field.0, text)?;
    take_value(field.1, rest, out)
}

/// Puts the bytes of one field after the other after those of `out`, and returns the text after
/// the last. After an error the fields before it may be there.
pub fn take_fields<'a, A: Allocator + Copy>(
    fields: &[(Key, Form)],
    text: &'a [u8],
    out: &mut Vec<u8, A>,
) -> Result<&'a [u8], ReadError>
    ensures { Gives (λ rest. (out.new.items, rest.now)) result
        (fields_from out.old.items fields.now text.now) }
{
    let mut rest = text;
    for field in fields {
        rest = take_field(*field, rest, out)?;
    }
    Ok(rest)
}
