//! Words at the front of a text: marks, numbers and bytes. Each function returns the value and the
//! text after it.

ghost use Rattle.std.specs.Prelude.{◌≡◌, ◌+◌, ◌*◌, ◌<◌, ◌≤◌, ◌^◌, [], IfOk, false, length, take};
ghost use Rattle.std.specs.Char.{digit_value};
ghost use Rattle.std.specs.List.{find};
ghost use Rattle.std.specs.Option.{SomeIff, option_map};
ghost use Rattle.std.specs.Str.{bytes_eq};
ghost use Rattle.std.specs.Str.Parse.{AllDigits, digits_value};
ghost use Rattle.p9_base.specs.Text.{is_text as text_test};
ghost use Rattle.p9_words.specs.Form.{radix_of};
ghost use Rattle.p9_words.specs.Reading.{Gives, behind, mark_at, key_at, verb_at, number_at};
ghost use Rattle.p9_words.specs.Reading.{digits_at, unquoted_from, pairs_at, bare_at, word_at};
ghost use Rattle.p9_words.specs.Reading.{text_at, data_at, is_short_text};
ghost use Rattle.p9_words.specs.Verb.{verb_text, verbs};

use crate::class::{Class, prefix_len, skip_blanks};
use crate::error::{Expected, ReadError, unexpected};
use crate::form::Base;
use crate::key::Key;
use crate::verb::{VERBS, Verb};
use hex::FromHexError;
use p9_base::is_text;
use std::alloc::Allocator;
use std::str::from_utf8;

/// What follows a mark, where the text begins with it.
#[tactic(auto, unfolding(crate::specs::Reading::behind))]
pub fn behind<'a>(mark: &[u8], text: &'a [u8]) -> Option<&'a [u8]>
    ensures { option_map (λ x. x.now) result ≡ behind mark.now text.now }
{
    text.strip_prefix(mark)
}

/// The text after a mark.
#[tactic(auto, unfolding(crate::specs::Reading::mark_at))]
pub fn take_mark<'a>(mark: &[u8], expected: Expected, text: &'a [u8]) -> Result<&'a [u8], ReadError>
    ensures { Gives (λ x. x.now) result (mark_at mark.now expected text.now) }
{
    let here = skip_blanks(text);
    match behind(mark, here) {
        Some(rest) => Ok(rest),
        None => Err(unexpected(expected, here)),
    }
}

/// The text after the word of a field.
#[tactic(auto, unfolding(crate::specs::Reading::key_at))]
pub fn take_key(key: Key, text: &[u8]) -> Result<&[u8], ReadError>
    ensures { Gives (λ x. x.now) result (key_at key text.now) }
{
    let here = skip_blanks(text);
    let (word, rest) = here.split_at(prefix_len(Class::Filled, here));
    if word == key.text().as_bytes() {
        Ok(rest)
    } else {
        Err(unexpected(Expected::Key(key), here))
    }
}

/// The message that the word at the front names.
#[tactic(auto, unfolding(crate::specs::Reading::verb_at))]
pub fn take_verb(text: &[u8]) -> Result<(Verb, &[u8]), ReadError>
    ensures { Gives (λ x. (x.0, x.1.now)) result (verb_at text.now) }
{
    let here = skip_blanks(text);
    let (word, rest) = here.split_at(prefix_len(Class::Filled, here));
    match verb_named(word) {
        Some(verb) => Ok((verb, rest)),
        None => Err(unexpected(Expected::Verb, here)),
    }
}

// The message of this name.
fn verb_named(word: &[u8]) -> Option<Verb>
    ensures { result ≡ find (λ v. bytes_eq (verb_text v) word.now) verbs }
{
    VERBS
        .iter()
        .copied()
        .find(|verb| verb.text().as_bytes() == word)
}

/// A number in digits of a base, at most so great.
#[tactic(auto, unfolding(crate::specs::Reading::number_at))]
pub fn take_number(base: Base, most: u64, text: &[u8]) -> Result<(u64, &[u8]), ReadError>
    ensures value { Gives (λ x. (x.0, x.1.now)) result (number_at base most text.now) }
    ensures small { IfOk result (λ x. x.0 ≤ most) }
{
    let here = skip_blanks(text);
    take_digits(base, most, prefix_len(Class::Digit(base), here), here)
}

// A number of so many digits at the front, at most so great.
#[tactic(auto, unfolding(crate::specs::Reading::digits_at))]
fn take_digits(base: Base, most: u64, n: usize, text: &[u8]) -> Result<(u64, &[u8]), ReadError>
    requires within { n ≤ length text.now }
    requires digits { AllDigits (radix_of base) (take n text.now) }
    ensures value { Gives (λ x. (x.0, x.1.now)) result (digits_at base most n text.now) }
    ensures small { IfOk result (λ x. x.0 ≤ most) }
{
    let (digits, rest) = text.split_at(n);
    match value_of(base, digits) {
        Some(value) if n > 0 && value <= most => Ok((value, rest)),
        _ => Err(unexpected(Expected::Number(base, most), text)),
    }
}

// The number that the digits write, if 64 bits hold it.
fn value_of(base: Base, digits: &[u8]) -> Option<u64>
    requires { AllDigits (radix_of base) digits.now }
    ensures { SomeIff result (digits_value (radix_of base) digits.now < 2 ^ 64)
        (digits_value (radix_of base) digits.now) }
{
    let radix = base.radix();
    let mut value = 0;
    for digit in digits {
        value = with_digit(radix, value, *digit)?;
    }
    Some(value)
}

// The number with one more digit at its end, if 64 bits hold it.
fn with_digit(radix: u32, value: u64, digit: u8) -> Option<u64>
    requires low { 2 ≤ radix }
    requires high { radix ≤ 36 }
    requires digit { digit_value digit < radix }
    ensures { SomeIff result (value * radix + digit_value digit < 2 ^ 64)
        (value * radix + digit_value digit) }
{
    let last = char::from(digit).to_digit(radix).unwrap();
    value
        .checked_mul(u64::from(radix))?
        .checked_add(u64::from(last))
}

/// The bytes after a quote, and the text after the quote that ends them.
pub fn take_quoted<A: Allocator + Copy>(
    alloc: A,
    text: &[u8],
) -> Result<(Vec<u8, A>, &[u8]), ReadError>
    ensures { Gives (λ x. (x.0.items, x.1.now)) result (unquoted_from false [] text.now) }
{
    let mut bytes = Vec::new(alloc);
    let mut quote = false;
    for (i, byte) in text.iter().enumerate() {
        if quote && *byte != b'\'' {
            return Ok((bytes, &text[i..]));
        }
        if !quote && *byte == b'\'' {
            quote = true;
        } else {
            quote = false;
            bytes.push(*byte)?;
        }
    }
    let end = &text[text.len()..];
    if quote {
        Ok((bytes, end))
    } else {
        Err(unexpected(Expected::Quote, end))
    }
}

/// The bytes that pairs of hexadecimal digits write, up to a quote.
#[tactic(auto, unfolding(crate::specs::Reading::pairs_at))]
fn take_pairs<A: Allocator + Copy>(alloc: A, text: &[u8]) -> Result<(Vec<u8, A>, &[u8]), ReadError>
    ensures { Gives (λ x. (x.0.items, x.1.now)) result (pairs_at text.now) }
{
    let (digits, rest) = text.split_at(prefix_len(Class::Unquoted, text));
    match hex::decode(alloc, digits) {
        Ok(bytes) => {
            match behind(b"'", rest) {
                Some(after) => Ok((bytes, after)),
                None => Err(unexpected(Expected::Quote, rest)),
            }
        }
        Err(FromHexError::OutOfMemory) => Err(ReadError::NoMemory),
        Err(_) => Err(unexpected(Expected::Pairs, text)),
    }
}

/// A bare word.
#[tactic(auto, unfolding(crate::specs::Reading::bare_at))]
fn take_bare<A: Allocator + Copy>(alloc: A, text: &[u8]) -> Result<(Vec<u8, A>, &[u8]), ReadError>
    ensures { Gives (λ x. (x.0.items, x.1.now)) result (bare_at text.now) }
{
    let n = prefix_len(Class::Bare, text);
    if n == 0 {
        return Err(unexpected(Expected::Word, text));
    }
    let (word, rest) = text.split_at(n);
    Ok((Vec::from_slice(alloc, word)?, rest))
}

/// Bytes in quotes, in hexadecimal digits or as a bare word.
#[tactic(auto, unfolding(crate::specs::Reading::word_at))]
pub fn take_word<A: Allocator + Copy>(
    alloc: A,
    text: &[u8],
) -> Result<(Vec<u8, A>, &[u8]), ReadError>
    ensures { Gives (λ x. (x.0.items, x.1.now)) result (word_at text.now) }
{
    let here = skip_blanks(text);
    if let Some(rest) = behind(b"'", here) {
        return take_quoted(alloc, rest);
    }
    if let Some(rest) = behind(b"x'", here) {
        return take_pairs(alloc, rest);
    }
    take_bare(alloc, here)
}

/// A text that a message may have.
#[tactic(auto, unfolding(crate::specs::Reading::text_at))]
pub fn take_text<A: Allocator + Copy>(
    alloc: A,
    text: &[u8],
) -> Result<(Vec<u8, A>, &[u8]), ReadError>
    ensures value { Gives (λ x. (x.0.items, x.1.now)) result (text_at text.now) }
    ensures short { IfOk result (λ x. length x.0.items < 2 ^ 16) }
{
    let here = skip_blanks(text);
    let (bytes, rest) = take_word(alloc, here)?;
    if is_short_text(bytes.as_slice()) {
        Ok((bytes, rest))
    } else {
        Err(unexpected(Expected::Text, here))
    }
}

// Whether a message may have the bytes as a text.
fn is_short_text(bytes: &[u8]) -> bool
    ensures { result ≡ is_short_text bytes.now }
{
    bytes.len() < 1 << 16 && is_text_of(bytes)
}

// Whether the bytes are UTF-8 without NUL.
#[tactic(auto, using(p9_fields::proofs::Texts::no_text_without_utf8))]
fn is_text_of(bytes: &[u8]) -> bool
    ensures { result ≡ text_test bytes.now }
{
    match from_utf8(bytes) {
        Ok(text) => is_text(text),
        Err(_) => false,
    }
}

/// A count, and so many bytes.
#[tactic(auto, unfolding(crate::specs::Reading::data_at))]
pub fn take_data<A: Allocator + Copy>(
    alloc: A,
    text: &[u8],
) -> Result<(Vec<u8, A>, &[u8]), ReadError>
    ensures value { Gives (λ x. (x.0.items, x.1.now)) result (data_at text.now) }
    ensures short { IfOk result (λ x. length x.0.items < 2 ^ 32) }
{
    let (count, rest) = take_number(Base::Decimal, u32::MAX as u64, text)?;
    let here = skip_blanks(rest);
    let (bytes, rest) = take_word(alloc, here)?;
    if bytes.len() as u64 == count {
        Ok((bytes, rest))
    } else {
        Err(unexpected(Expected::Count(count), here))
    }
}
