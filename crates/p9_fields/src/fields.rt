//! Fields taken from the front of bytes. Each returns its value and the bytes after it, or None
//! where the bytes begin with no such field.

ghost use Rattle.std.specs.Prelude.{◌≡◌, ◌≤◌, ◌==◌, Some, None, length, nat_lt, if◌then◌else◌};
ghost use Rattle.p9_base.specs.Text.{is_text as text_test};
ghost use Rattle.p9_fields.specs.Fields.{elements_max};
ghost use Rattle.p9_fields.specs.Stat.{stat_view};
ghost use Rattle.p9_fields.specs.FieldReading.{◌and_then◌, Gives, number_at, bytes_at, text_at};
ghost use Rattle.p9_fields.specs.FieldReading.{sized_bytes_at, qid_at, counted_at, times};
ghost use Rattle.p9_fields.specs.FieldReading.{numbers_view, several_at, sized_at, stat_at};
ghost use Rattle.p9_fields.specs.FieldReading.{header_at, stat_fields_at, stat_numbers_at};

use crate::names::{MAXWELEM, Names};
use crate::qids::Qids;
use crate::stat::Stat;
use byteorder::{ByteOrder, LittleEndian};
use p9_base::{Qid, is_text};
use std::str::from_utf8;

/// Nothing, where no bytes are left. It is None where some are.
pub fn take_end(bytes: &[u8]) -> Option<()>
    ensures { result ≡ (if length bytes.now == 0 then Some tt else None) }
{
    if bytes.is_empty() { Some(()) } else { None }
}

/// A number of one byte.
pub fn take_u8(bytes: &[u8]) -> Option<(u8, &[u8])>
    ensures { Gives (λ x. (x.0, x.1.now)) result (number_at 1 bytes.now) }
{
    match bytes {
        [] => None,
        [first, rest @ ..] => Some((*first, rest)),
    }
}

/// A number of two bytes, the lowest first.
pub fn take_u16(bytes: &[u8]) -> Option<(u16, &[u8])>
    ensures { Gives (λ x. (x.0, x.1.now)) result (number_at 2 bytes.now) }
{
    if bytes.len() < 2 {
        return None;
    }
    Some((LittleEndian::read_u16(bytes), &bytes[2..]))
}

/// A number of four bytes, the lowest first.
pub fn take_u32(bytes: &[u8]) -> Option<(u32, &[u8])>
    ensures { Gives (λ x. (x.0, x.1.now)) result (number_at 4 bytes.now) }
{
    if bytes.len() < 4 {
        return None;
    }
    Some((LittleEndian::read_u32(bytes), &bytes[4..]))
}

/// A number of eight bytes, the lowest first.
pub fn take_u64(bytes: &[u8]) -> Option<(u64, &[u8])>
    ensures { Gives (λ x. (x.0, x.1.now)) result (number_at 8 bytes.now) }
{
    if bytes.len() < 8 {
        return None;
    }
    Some((LittleEndian::read_u64(bytes), &bytes[8..]))
}

/// So many bytes.
fn take_bytes(count: usize, bytes: &[u8]) -> Option<(&[u8], &[u8])>
    ensures { Gives (λ x. (x.0.now, x.1.now)) result (bytes_at count bytes.now) }
{
    if bytes.len() < count {
        return None;
    }
    Some(bytes.split_at(count))
}

/// The bytes whose number is in the two bytes before them.
fn take_sized(bytes: &[u8]) -> Option<(&[u8], &[u8])>
    ensures { Gives (λ x. (x.0.now, x.1.now)) result (sized_bytes_at bytes.now) }
{
    let (len, rest) = take_u16(bytes)?;
    take_bytes(len as usize, rest)
}

/// The text that these bytes are: UTF-8 without NUL.
#[tactic(auto, using(crate::proofs::Texts::no_text_without_utf8))]
fn text_from(bytes: &[u8]) -> Option<&str>
    ensures { Gives (λ s. s.now) result (if text_test bytes.now then Some bytes.now else None) }
{
    match from_utf8(bytes) {
        Ok(text) if is_text(text) => Some(text),
        _ => None,
    }
}

/// A text after two bytes of length.
#[tactic(auto, unfolding(crate::specs::FieldReading::text_at))]
pub fn take_text(bytes: &[u8]) -> Option<(&str, &[u8])>
    ensures { Gives (λ x. (x.0.now, x.1.now)) result (text_at bytes.now) }
{
    let (front, rest) = take_sized(bytes)?;
    let text = text_from(front)?;
    Some((text, rest))
}

/// `type[1] vers[4] path[8]`.
#[tactic(auto, unfolding(crate::specs::FieldReading::qid_at))]
pub fn take_qid(bytes: &[u8]) -> Option<(Qid, &[u8])>
    ensures { Gives (λ x. (x.0, x.1.now)) result (qid_at bytes.now) }
{
    let (kind, rest) = take_u8(bytes)?;
    let (version, rest) = take_u32(rest)?;
    let (path, rest) = take_u64(rest)?;
    let qid = Qid {
        kind,
        version,
        path,
    };
    Some((qid, rest))
}

/// Data after four bytes of count.
#[tactic(auto, unfolding(crate::specs::FieldReading::counted_at))]
pub fn take_counted(bytes: &[u8]) -> Option<(&[u8], &[u8])>
    ensures { Gives (λ x. (x.0.now, x.1.now)) result (counted_at bytes.now) }
{
    let (count, rest) = take_u32(bytes)?;
    take_bytes(count as usize, rest)
}

/// The number of at most sixteen names or qids, in two bytes.
fn take_count(bytes: &[u8]) -> Option<(usize, &[u8])>
    ensures { Gives (λ x. (x.0, x.1.now)) result
        (number_at 2 bytes.now and_then λ n. if nat_lt elements_max n.0 then None else Some n) }
{
    let (count, rest) = take_u16(bytes)?;
    let count = count as usize;
    if count > MAXWELEM {
        return None;
    }
    Some((count, rest))
}

/// So many texts, one after another.
fn some_names(count: usize, bytes: &[u8]) -> Option<(Names<'_>, &[u8])>
    requires { count ≤ elements_max }
    ensures { Gives (λ x. (x.0, x.1.now)) result (times text_at count bytes.now) }
{
    let mut names = Names::new();
    let mut rest = bytes;
    for i in 0..count {
        let (name, after) = take_text(rest)?;
        names.push(name);
        rest = after;
    }
    Some((names, rest))
}

/// At most sixteen texts after two bytes of their number.
#[tactic(auto, unfolding(crate::specs::FieldReading::several_at))]
pub fn take_names(bytes: &[u8]) -> Option<(Names<'_>, &[u8])>
    ensures { Gives (λ x. (x.0, x.1.now)) result (several_at text_at bytes.now) }
{
    let (count, rest) = take_count(bytes)?;
    some_names(count, rest)
}

/// So many qids, one after another.
fn some_qids(count: usize, bytes: &[u8]) -> Option<(Qids, &[u8])>
    requires { count ≤ elements_max }
    ensures { Gives (λ x. (x.0, x.1.now)) result (times qid_at count bytes.now) }
{
    let mut qids = Qids::new();
    let mut rest = bytes;
    for i in 0..count {
        let (qid, after) = take_qid(rest)?;
        qids.push(qid);
        rest = after;
    }
    Some((qids, rest))
}

/// At most sixteen qids after two bytes of their number.
#[tactic(auto, unfolding(crate::specs::FieldReading::several_at))]
pub fn take_qids(bytes: &[u8]) -> Option<(Qids, &[u8])>
    ensures { Gives (λ x. (x.0, x.1.now)) result (several_at qid_at bytes.now) }
{
    let (count, rest) = take_count(bytes)?;
    some_qids(count, rest)
}

// The numbers of a stat, in the order of their bytes.
#[derive(Clone, Copy)]
struct StatNumbers {
    kind: u16,
    dev: u32,
    qid: Qid,
    mode: u32,
    atime: u32,
    mtime: u32,
    length: u64,
}

// The numbers of a stat, which come before its texts.
#[tactic(auto, unfolding(crate::specs::FieldReading::stat_numbers_at))]
fn take_stat_numbers(bytes: &[u8]) -> Option<(StatNumbers, &[u8])>
    ensures { Gives (λ x. (numbers_view x.0, x.1.now)) result (stat_numbers_at bytes.now) }
{
    let (kind, rest) = take_u16(bytes)?;
    let (dev, rest) = take_u32(rest)?;
    let (qid, rest) = take_qid(rest)?;
    let (mode, rest) = take_u32(rest)?;
    let (atime, rest) = take_u32(rest)?;
    let (mtime, rest) = take_u32(rest)?;
    let (length, rest) = take_u64(rest)?;
    let numbers = StatNumbers {
        kind,
        dev,
        qid,
        mode,
        atime,
        mtime,
        length,
    };
    Some((numbers, rest))
}

// A stat without its size.
#[tactic(auto, unfolding(crate::specs::FieldReading::stat_fields_at))]
fn take_stat_fields(bytes: &[u8]) -> Option<(Stat<'_>, &[u8])>
    ensures { Gives (λ x. (stat_view x.0, x.1.now)) result (stat_fields_at bytes.now) }
{
    let (numbers, rest) = take_stat_numbers(bytes)?;
    let (name, rest) = take_text(rest)?;
    let (uid, rest) = take_text(rest)?;
    let (gid, rest) = take_text(rest)?;
    let (muid, rest) = take_text(rest)?;
    let StatNumbers {
        kind,
        dev,
        qid,
        mode,
        atime,
        mtime,
        length,
    } = numbers;
    let stat = Stat {
        kind,
        dev,
        qid,
        mode,
        atime,
        mtime,
        length,
        name,
        uid,
        gid,
        muid,
    };
    Some((stat, rest))
}

/// A stat after its size, which its fields take up.
#[tactic(auto, unfolding(crate::specs::FieldReading::sized_at))]
pub fn take_stat(bytes: &[u8]) -> Option<(Stat<'_>, &[u8])>
    ensures { Gives (λ x. (stat_view x.0, x.1.now)) result (sized_at stat_fields_at bytes.now) }
{
    let (front, rest) = take_sized(bytes)?;
    let (stat, end) = take_stat_fields(front)?;
    take_end(end)?;
    Some((stat, rest))
}

/// A stat as a message holds it: after two bytes of length, which its size and fields take up.
#[tactic(auto, unfolding(crate::specs::FieldReading::sized_at))]
pub fn take_sized_stat(bytes: &[u8]) -> Option<(Stat<'_>, &[u8])>
    ensures { Gives (λ x. (stat_view x.0, x.1.now)) result (stat_at bytes.now) }
{
    let (front, rest) = take_sized(bytes)?;
    let (stat, end) = take_stat(front)?;
    take_end(end)?;
    Some((stat, rest))
}

/// `size[4] type[1] tag[2]`: type, tag and body of a frame that has all of these bytes.
#[tactic(auto, unfolding(crate::specs::FieldReading::header_at))]
pub fn take_header(bytes: &[u8]) -> Option<(u8, u16, &[u8])>
    ensures { Gives (λ x. (x.0, x.1, x.2.now)) result (header_at bytes.now) }
{
    let (size, rest) = take_u32(bytes)?;
    if size as usize != bytes.len() {
        return None;
    }
    let (kind, rest) = take_u8(rest)?;
    let (tag, rest) = take_u16(rest)?;
    Some((kind, tag, rest))
}
