//! Values in words, printed after what is there. Where an allocation fails, a part of a word may
//! be there.

ghost use Rattle.std.specs.Prelude.{◌≡◌, ◌==◌, ◌&&◌, ◌++◌, OnOk, codes, length, not};
ghost use Rattle.std.specs.List.{flat_map, list_all};
ghost use Rattle.p9_wire.specs.Stat.{stat_view};
ghost use Rattle.p9_words.specs.Class.{is_bare};
ghost use Rattle.p9_words.specs.Key.{key_text};
ghost use Rattle.p9_words.specs.Value.{value_view};
ghost use Rattle.p9_words.specs.Words.{number_words, is_printable, between_quotes, quoted, paired};
ghost use Rattle.p9_words.specs.Words.{shown, name_words, data_words, qid_words, items_words};
ghost use Rattle.p9_words.specs.Words.{several_words, octal_words, keyed, stat_texts_words};
ghost use Rattle.p9_words.specs.Words.{stat_numbers_words, stat_words, value_words};
ghost use Rattle.p9_words.specs.declared.form.Base.TheVariants.{Decimal};

use crate::class::{Class, all_in};
use crate::form::Base;
use crate::key::Key;
use crate::value::Value;
use p9_base::{NoMemory, Qid};
use p9_shown::is_visible;
use p9_wire::{Names, Qids, Stat};
use std::alloc::Allocator;
use std::str::from_utf8;

/// Prints bytes as they are after what `out` has.
pub fn print<A: Allocator + Copy>(word: &[u8], out: &mut Vec<u8, A>) -> Result<(), NoMemory>
    ensures { OnOk result (out.new.items ≡ out.old.items ++ word.now) }
{
    out.extend_from_slice(word)?;
    Ok(())
}

/// Prints the digits of a number, without leading zeros.
pub fn print_number<A: Allocator + Copy>(
    base: Base,
    n: u64,
    out: &mut Vec<u8, A>,
) -> Result<(), NoMemory>
    ensures { OnOk result (out.new.items ≡ out.old.items ++ number_words base n) }
{
    let alloc = *out.allocator();
    let digits = match base {
        Base::Octal => format!(in alloc; "{n:o}")?,
        Base::Decimal => format!(in alloc; "{n}")?,
        Base::Hexadecimal => format!(in alloc; "{n:x}")?,
    };
    print(digits.as_bytes(), out)
}

// Whether bytes are printed as a text.
#[tactic(auto, using(crate::proofs::Texts::no_utf8, crate::proofs::Texts::some_utf8))]
fn is_printable(bytes: &[u8]) -> bool
    ensures { result ≡ is_printable bytes.now }
{
    match from_utf8(bytes) {
        Ok(text) => is_visible(text),
        Err(_) => false,
    }
}

// A text in quotes.
fn print_quoted<A: Allocator + Copy>(text: &[u8], out: &mut Vec<u8, A>) -> Result<(), NoMemory>
    ensures { OnOk result (out.new.items ≡ out.old.items ++ quoted text.now) }
{
    out.push(b'\'')?;
    print_between(text, out)?;
    out.push(b'\'')?;
    Ok(())
}

// The bytes between quotes, where a quote is twice.
fn print_between<A: Allocator + Copy>(text: &[u8], out: &mut Vec<u8, A>) -> Result<(), NoMemory>
    ensures { OnOk result (out.new.items ≡ out.old.items ++ flat_map between_quotes text.now) }
{
    for byte in text {
        print_byte(*byte, out)?;
    }
    Ok(())
}

// A byte between quotes.
fn print_byte<A: Allocator + Copy>(byte: u8, out: &mut Vec<u8, A>) -> Result<(), NoMemory>
    ensures { OnOk result (out.new.items ≡ out.old.items ++ between_quotes byte) }
{
    if byte == b'\'' {
        out.push(b'\'')?;
    }
    out.push(byte)?;
    Ok(())
}

/// Prints bytes as pairs of hexadecimal digits in quotes after an `x`.
pub fn print_paired<A: Allocator + Copy>(bytes: &[u8], out: &mut Vec<u8, A>) -> Result<(), NoMemory>
    ensures { OnOk result (out.new.items ≡ out.old.items ++ paired bytes.now) }
{
    let digits = hex::encode(*out.allocator(), bytes)?;
    print(b"x'", out)?;
    print(digits.as_bytes(), out)?;
    print(b"'", out)
}

/// Bytes as a text where they are one whose characters are seen, as
/// [`is_visible`](p9_shown::is_visible) says, else in hexadecimal digits.
#[tactic(auto, unfolding(crate::specs::Words::shown))]
pub fn print_shown<A: Allocator + Copy>(bytes: &[u8], out: &mut Vec<u8, A>) -> Result<(), NoMemory>
    ensures { OnOk result (out.new.items ≡ out.old.items ++ shown bytes.now) }
{
    if is_printable(bytes) {
        print_quoted(bytes, out)
    } else {
        print_paired(bytes, out)
    }
}

// Whether a name may be a bare word.
fn is_bare_word(name: &[u8]) -> bool
    ensures { result ≡ (not (length name.now == 0) && list_all is_bare name.now) }
{
    !name.is_empty() && all_in(Class::Bare, name)
}

/// A name: a bare word where it may be one.
#[tactic(auto, unfolding(crate::specs::Words::name_words))]
pub fn print_name<A: Allocator + Copy>(name: &[u8], out: &mut Vec<u8, A>) -> Result<(), NoMemory>
    ensures { OnOk result (out.new.items ≡ out.old.items ++ name_words name.now) }
{
    if is_bare_word(name) {
        print(name, out)
    } else {
        print_shown(name, out)
    }
}

/// A count, and so many bytes.
pub fn print_data<A: Allocator + Copy>(bytes: &[u8], out: &mut Vec<u8, A>) -> Result<(), NoMemory>
    ensures { OnOk result (out.new.items ≡ out.old.items ++ data_words bytes.now) }
{
    print_number(Base::Decimal, bytes.len() as u64, out)?;
    print(b" ", out)?;
    print_shown(bytes, out)
}

/// `(PATH VERS TYPE)`.
#[tactic(auto, unfolding(crate::specs::Words::qid_words))]
pub fn print_qid<A: Allocator + Copy>(qid: Qid, out: &mut Vec<u8, A>) -> Result<(), NoMemory>
    ensures { OnOk result (out.new.items ≡ out.old.items ++ qid_words qid) }
{
    print(b"(", out)?;
    print_number(Base::Hexadecimal, qid.path, out)?;
    print(b" ", out)?;
    print_number(Base::Decimal, u64::from(qid.version), out)?;
    print(b" ", out)?;
    print_number(Base::Hexadecimal, u64::from(qid.kind), out)?;
    print(b")", out)
}

// An index and a colon, after a blank.
fn print_index<A: Allocator + Copy>(index: usize, out: &mut Vec<u8, A>) -> Result<(), NoMemory>
    ensures { OnOk result
        (out.new.items ≡ out.old.items ++ (codes " " ++ number_words Decimal index ++ codes ":")) }
{
    print(b" ", out)?;
    print_number(Base::Decimal, index as u64, out)?;
    print(b":", out)
}

// Names, each after its index.
fn print_indexed_names<A: Allocator + Copy>(
    names: &Names<'_>,
    out: &mut Vec<u8, A>,
) -> Result<(), NoMemory>
    ensures { OnOk result
        (out.new.items ≡ out.old.items ++ items_words name_words 0 names.now) }
{
    for (i, name) in names.as_slice().iter().enumerate() {
        print_index(i, out)?;
        print_name(name.as_bytes(), out)?;
    }
    Ok(())
}

// Qids, each after its index.
fn print_indexed_qids<A: Allocator + Copy>(
    qids: &[Qid],
    out: &mut Vec<u8, A>,
) -> Result<(), NoMemory>
    ensures { OnOk result (out.new.items ≡ out.old.items ++ items_words qid_words 0 qids.now) }
{
    for (i, qid) in qids.iter().enumerate() {
        print_index(i, out)?;
        print_qid(*qid, out)?;
    }
    Ok(())
}

/// A number of names, and each name after its index.
pub fn print_names<A: Allocator + Copy>(
    names: &Names<'_>,
    out: &mut Vec<u8, A>,
) -> Result<(), NoMemory>
    ensures { OnOk result
        (out.new.items ≡ out.old.items ++ several_words name_words names.now) }
{
    print_number(Base::Decimal, names.len() as u64, out)?;
    print_indexed_names(names, out)
}

/// A number of qids, and each qid after its index.
pub fn print_qids<A: Allocator + Copy>(qids: &Qids, out: &mut Vec<u8, A>) -> Result<(), NoMemory>
    ensures { OnOk result (out.new.items ≡ out.old.items ++ several_words qid_words qids.now) }
{
    let items = qids.as_slice();
    print_number(Base::Decimal, items.len() as u64, out)?;
    print_indexed_qids(items, out)
}

/// A word and a blank after a blank, before a field.
pub fn print_key<A: Allocator + Copy>(key: Key, out: &mut Vec<u8, A>) -> Result<(), NoMemory>
    ensures { OnOk result
        (out.new.items ≡ out.old.items ++ (codes " " ++ key_text key ++ codes " ")) }
{
    print(b" ", out)?;
    print(key.text().as_bytes(), out)?;
    print(b" ", out)
}

/// Permissions and flags, in octal digits after a 0.
pub fn print_octal<A: Allocator + Copy>(n: u32, out: &mut Vec<u8, A>) -> Result<(), NoMemory>
    ensures { OnOk result (out.new.items ≡ out.old.items ++ octal_words n) }
{
    print(b"0", out)?;
    print_number(Base::Octal, u64::from(n), out)
}

// A number after its word.
fn print_keyed<A: Allocator + Copy>(key: Key, n: u64, out: &mut Vec<u8, A>) -> Result<(), NoMemory>
    ensures { OnOk result (out.new.items ≡ out.old.items ++ keyed key (number_words Decimal n)) }
{
    print_key(key, out)?;
    print_number(Base::Decimal, n, out)
}

// A qid after its word.
fn print_keyed_qid<A: Allocator + Copy>(
    key: Key,
    qid: Qid,
    out: &mut Vec<u8, A>,
) -> Result<(), NoMemory>
    ensures { OnOk result (out.new.items ≡ out.old.items ++ keyed key (qid_words qid)) }
{
    print_key(key, out)?;
    print_qid(qid, out)
}

// Permissions and flags after their word.
fn print_keyed_octal<A: Allocator + Copy>(
    key: Key,
    n: u32,
    out: &mut Vec<u8, A>,
) -> Result<(), NoMemory>
    ensures { OnOk result (out.new.items ≡ out.old.items ++ keyed key (octal_words n)) }
{
    print_key(key, out)?;
    print_octal(n, out)
}

// The texts of a stat.
fn print_stat_texts<A: Allocator + Copy>(
    stat: &Stat<'_>,
    out: &mut Vec<u8, A>,
) -> Result<(), NoMemory>
    ensures { OnOk result
        (out.new.items ≡ out.old.items ++ stat_texts_words (stat_view stat.now)) }
{
    print_shown(stat.name.as_bytes(), out)?;
    print(b" ", out)?;
    print_shown(stat.uid.as_bytes(), out)?;
    print(b" ", out)?;
    print_shown(stat.gid.as_bytes(), out)?;
    print(b" ", out)?;
    print_shown(stat.muid.as_bytes(), out)
}

// The numbers of a stat, each after its word.
fn print_stat_numbers<A: Allocator + Copy>(
    stat: &Stat<'_>,
    out: &mut Vec<u8, A>,
) -> Result<(), NoMemory>
    ensures { OnOk result
        (out.new.items ≡ out.old.items ++ stat_numbers_words (stat_view stat.now)) }
{
    print_keyed_qid(Key::StatQid, stat.qid, out)?;
    print_keyed_octal(Key::StatMode, stat.mode, out)?;
    print_keyed(Key::Atime, u64::from(stat.atime), out)?;
    print_keyed(Key::Mtime, u64::from(stat.mtime), out)?;
    print_keyed(Key::Length, stat.length, out)?;
    print_keyed(Key::Kind, u64::from(stat.kind), out)?;
    print_keyed(Key::Dev, u64::from(stat.dev), out)
}

/// A stat, as dirread(2) prints it.
pub fn print_stat<A: Allocator + Copy>(
    stat: &Stat<'_>,
    out: &mut Vec<u8, A>,
) -> Result<(), NoMemory>
    ensures { OnOk result (out.new.items ≡ out.old.items ++ stat_words (stat_view stat.now)) }
{
    print_stat_texts(stat, out)?;
    print_stat_numbers(stat, out)
}

/// The value of a field.
#[tactic(auto, unfolding(crate::specs::Words::value_words))]
pub fn print_value<A: Allocator + Copy>(
    value: &Value<'_>,
    out: &mut Vec<u8, A>,
) -> Result<(), NoMemory>
    ensures { OnOk result (out.new.items ≡ out.old.items ++ value_words (value_view value.now)) }
{
    match value {
        Value::U8(n) => print_number(Base::Decimal, u64::from(*n), out),
        Value::U16(n) => print_number(Base::Decimal, u64::from(*n), out),
        Value::U32(n) => print_number(Base::Decimal, u64::from(*n), out),
        Value::U64(n) => print_number(Base::Decimal, *n, out),
        Value::Octal(n) => print_octal(*n, out),
        Value::Text(text) => print_shown(text.as_bytes(), out),
        Value::Data(bytes) => print_data(bytes, out),
        Value::Qid(qid) => print_qid(*qid, out),
        Value::Names(names) => print_names(names, out),
        Value::Qids(qids) => print_qids(qids, out),
        Value::Stat(stat) => print_stat(stat, out),
    }
}
