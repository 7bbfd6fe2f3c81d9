//! Stats in words, as dirread(2) prints them.

ghost use Rattle.std.specs.Prelude.{◌≡◌, ◌≤◌, ◌<◌, ◌^◌, ◌++◌, OnOk, IfOk};
ghost use Rattle.std.specs.Option.{SomeIff};
ghost use Rattle.p9_wire.specs.Fields.{sized, stat_bytes, stat_len};
ghost use Rattle.p9_words.specs.Reading.{Gives, keyed_at, put_after, stat_fields_at, stat_at};
ghost use Rattle.p9_words.specs.Stat.{parts_view, stat_numbers, stat_texts};

use crate::bytes::{put_number, put_qid, put_text};
use crate::class::skip_blanks;
use crate::error::{Expected, ReadError, unexpected};
use crate::field::take_qid;
use crate::form::{Base, Width};
use crate::key::Key;
use crate::word::{take_key, take_number, take_text};
use p9_base::{NoMemory, Qid};
use p9_wire::STAT_FIXED;
use std::alloc::Allocator;

/// The fields of a stat, with its texts in memory of their own.
#[derive(Drop)]
struct Parts<A: Allocator + Copy> {
    kind: u16,
    dev: u32,
    qid: Qid,
    mode: u32,
    atime: u32,
    mtime: u32,
    length: u64,
    name: Vec<u8, A>,
    uid: Vec<u8, A>,
    gid: Vec<u8, A>,
    muid: Vec<u8, A>,
}

// A number after its word.
#[tactic(auto, unfolding(crate::specs::Reading::keyed_at))]
fn take_keyed(key: Key, base: Base, most: u64, text: &[u8]) -> Result<(u64, &[u8]), ReadError>
    ensures value { Gives (λ x. (x.0, x.1.now)) result (keyed_at key base most text.now) }
    ensures small { IfOk result (λ x. x.0 ≤ most) }
{
    let rest = take_key(key, text)?;
    take_number(base, most, rest)
}

// The fields of a stat.
#[tactic(auto, unfolding(crate::specs::Reading::stat_fields_at))]
fn take_parts<A: Allocator + Copy>(alloc: A, text: &[u8]) -> Result<(Parts<A>, &[u8]), ReadError>
    ensures value { Gives (λ x. (parts_view x.0, x.1.now)) result (stat_fields_at text.now) }
{
    let (name, rest) = take_text(alloc, text)?;
    let (uid, rest) = take_text(alloc, rest)?;
    let (gid, rest) = take_text(alloc, rest)?;
    let (muid, rest) = take_text(alloc, rest)?;
    let (qid, rest) = take_qid(take_key(Key::StatQid, rest)?)?;
    let (mode, rest) = take_keyed(Key::StatMode, Base::Octal, u32::MAX as u64, rest)?;
    let (atime, rest) = take_keyed(Key::Atime, Base::Decimal, u32::MAX as u64, rest)?;
    let (mtime, rest) = take_keyed(Key::Mtime, Base::Decimal, u32::MAX as u64, rest)?;
    let (length, rest) = take_keyed(Key::Length, Base::Decimal, u64::MAX, rest)?;
    let (kind, rest) = take_keyed(Key::Kind, Base::Decimal, u16::MAX as u64, rest)?;
    let (dev, rest) = take_keyed(Key::Dev, Base::Decimal, u32::MAX as u64, rest)?;
    let parts = Parts {
        kind: kind as u16,
        dev: dev as u32,
        qid,
        mode: mode as u32,
        atime: atime as u32,
        mtime: mtime as u32,
        length,
        name,
        uid,
        gid,
        muid,
    };
    Ok((parts, rest))
}

// How many bytes the stat takes, if two bytes hold that.
fn size_of<A: Allocator + Copy>(parts: &Parts<A>) -> Option<u64>
    ensures { SomeIff result (stat_len (parts_view parts.now) < 2 ^ 16)
        (stat_len (parts_view parts.now)) }
{
    let size = STAT_FIXED
        .checked_add(parts.name.len())?
        .checked_add(parts.uid.len())?
        .checked_add(parts.gid.len())?
        .checked_add(parts.muid.len())?;
    if size < 1 << 16 {
        Some(size as u64)
    } else {
        None
    }
}

// The bytes of the stat, after their length.
fn put_stat<A: Allocator + Copy>(
    parts: &Parts<A>,
    size: u64,
    out: &mut Vec<u8, A>,
) -> Result<(), NoMemory>
    requires size { size ≡ stat_len (parts_view parts.now) }
    requires short { size < 2 ^ 16 }
    ensures { OnOk result
        (out.new.items ≡ out.old.items ++ sized stat_bytes (parts_view parts.now)) }
{
    put_number(Width::U16, size, out)?;
    put_number(Width::U16, size - 2, out)?;
    put_numbers(parts, out)?;
    put_texts(parts, out)?;
    Ok(())
}

// The numbers of the stat.
fn put_numbers<A: Allocator + Copy>(parts: &Parts<A>, out: &mut Vec<u8, A>) -> Result<(), NoMemory>
    ensures { OnOk result (out.new.items ≡ out.old.items ++ stat_numbers (parts_view parts.now)) }
{
    put_number(Width::U16, u64::from(parts.kind), out)?;
    put_number(Width::U32, u64::from(parts.dev), out)?;
    put_qid(parts.qid, out)?;
    put_number(Width::U32, u64::from(parts.mode), out)?;
    put_number(Width::U32, u64::from(parts.atime), out)?;
    put_number(Width::U32, u64::from(parts.mtime), out)?;
    put_number(Width::U64, parts.length, out)
}

// The texts of the stat.
fn put_texts<A: Allocator + Copy>(parts: &Parts<A>, out: &mut Vec<u8, A>) -> Result<(), NoMemory>
    requires { stat_len (parts_view parts.now) < 2 ^ 16 }
    ensures { OnOk result (out.new.items ≡ out.old.items ++ stat_texts (parts_view parts.now)) }
{
    put_text(parts.name.as_slice(), out)?;
    put_text(parts.uid.as_slice(), out)?;
    put_text(parts.gid.as_slice(), out)?;
    put_text(parts.muid.as_slice(), out)
}

/// Puts the bytes of a stat whose length two bytes hold, after that length, after those of `out`,
/// and returns the text after it. After an error a part of them may be there.
#[tactic(auto, unfolding(crate::specs::Reading::stat_at))]
pub fn take_stat<'a, A: Allocator + Copy>(
    text: &'a [u8],
    out: &mut Vec<u8, A>,
) -> Result<&'a [u8], ReadError>
    ensures { Gives (λ rest. (out.new.items, rest.now)) result
        (put_after out.old.items (stat_at text.now)) }
{
    let here = skip_blanks(text);
    let (parts, rest) = take_parts(*out.allocator(), here)?;
    let Some(size) = size_of(&parts) else {
        return Err(unexpected(Expected::ShortStat, here));
    };
    put_stat(&parts, size, out)?;
    Ok(rest)
}
