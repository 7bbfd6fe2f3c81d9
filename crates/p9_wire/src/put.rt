//! Fields put into a buffer. Each is written from the index `at` on. All else in the buffer is
//! unchanged, and the index after the field is returned.

ghost use Rattle.std.specs.Prelude.{◌≡◌, ◌≤◌, ◌<◌, ◌+◌, ◌*◌, ◌^◌, ◌++◌, All, length, sum_by};
ghost use Rattle.p9_wire.specs.Fields.{number, text, counted, several, sized, qid_bytes};
ghost use Rattle.p9_wire.specs.Fields.{stat_fields, stat_bytes, stat_len, FitsStat};
ghost use Rattle.p9_wire.specs.Stat.{stat_view};
ghost use Rattle.p9_wire.specs.Writing.{Puts, Writes};

use byteorder::{ByteOrder, LittleEndian};
use p9_base::Qid;
use p9_fields::{Names, Qids, Stat};

pub fn put_bytes(out: &mut [u8], at: usize, bytes: &[u8]) -> usize
    requires { at + length bytes.now ≤ length out.old }
    ensures next { result ≡ at + length bytes.now }
    ensures bytes { Puts bytes.now at result out.old out.new }
{
    let end = at + bytes.len();
    out[at..end].copy_from_slice(bytes);
    end
}

#[tactic(auto, unfolding(p9_fields::specs::Fields::number))]
pub fn put_u8(out: &mut [u8], at: usize, n: u8) -> usize
    requires { at + 1 ≤ length out.old }
    ensures next { result ≡ at + 1 }
    ensures bytes { Puts (number 1 n) at result out.old out.new }
{
    out[at] = n;
    at + 1
}

#[tactic(auto, unfolding(p9_fields::specs::Fields::number))]
pub fn put_u16(out: &mut [u8], at: usize, n: u16) -> usize
    requires { at + 2 ≤ length out.old }
    ensures next { result ≡ at + 2 }
    ensures bytes { Puts (number 2 n) at result out.old out.new }
{
    let mut bytes = [0; 2];
    LittleEndian::write_u16(&mut bytes, n);
    put_bytes(out, at, &bytes)
}

#[tactic(auto, unfolding(p9_fields::specs::Fields::number))]
pub fn put_u32(out: &mut [u8], at: usize, n: u32) -> usize
    requires { at + 4 ≤ length out.old }
    ensures next { result ≡ at + 4 }
    ensures bytes { Puts (number 4 n) at result out.old out.new }
{
    let mut bytes = [0; 4];
    LittleEndian::write_u32(&mut bytes, n);
    put_bytes(out, at, &bytes)
}

#[tactic(auto, unfolding(p9_fields::specs::Fields::number))]
pub fn put_u64(out: &mut [u8], at: usize, n: u64) -> usize
    requires { at + 8 ≤ length out.old }
    ensures next { result ≡ at + 8 }
    ensures bytes { Puts (number 8 n) at result out.old out.new }
{
    let mut bytes = [0; 8];
    LittleEndian::write_u64(&mut bytes, n);
    put_bytes(out, at, &bytes)
}

/// A text after two bytes of its length.
pub fn put_text(out: &mut [u8], at: usize, s: &str) -> usize
    requires short { length s.now < 2 ^ 16 }
    requires room { at + 2 + length s.now ≤ length out.old }
    ensures next { result ≡ at + 2 + length s.now }
    ensures bytes { Puts (text s.now) at result out.old out.new }
{
    let at = put_u16(out, at, s.len() as u16);
    put_bytes(out, at, s.as_bytes())
}

/// `type[1] vers[4] path[8]`.
pub fn put_qid(out: &mut [u8], at: usize, qid: Qid) -> usize
    requires { at + 13 ≤ length out.old }
    ensures next { result ≡ at + 13 }
    ensures bytes { Puts (qid_bytes qid) at result out.old out.new }
{
    let at = put_u8(out, at, qid.kind);
    let at = put_u32(out, at, qid.version);
    put_u64(out, at, qid.path)
}

/// Data after four bytes of its count.
pub fn put_counted(out: &mut [u8], at: usize, bytes: &[u8]) -> usize
    requires short { length bytes.now < 2 ^ 32 }
    requires room { at + 4 + length bytes.now ≤ length out.old }
    ensures next { result ≡ at + 4 + length bytes.now }
    ensures bytes { Puts (counted bytes.now) at result out.old out.new }
{
    let at = put_u32(out, at, bytes.len() as u32);
    put_bytes(out, at, bytes)
}

/// Names after two bytes of their number.
pub fn put_names(out: &mut [u8], at: usize, names: &Names<'_>) -> usize
    requires short { All (λ n. length n < 2 ^ 16) names.now }
    requires room { at + 2 + sum_by (λ n. 2 + length n) names.now ≤ length out.old }
    ensures next { result ≡ at + 2 + sum_by (λ n. 2 + length n) names.now }
    ensures bytes { Puts (several text names.now) at result out.old out.new }
{
    let items = names.as_slice();
    let mut end = put_u16(out, at, items.len() as u16);
    for name in items {
        end = put_text(out, end, name);
    }
    end
}

/// Qids after two bytes of their number.
pub fn put_qids(out: &mut [u8], at: usize, qids: &Qids) -> usize
    requires { at + 2 + 13 * length qids.now ≤ length out.old }
    ensures next { result ≡ at + 2 + 13 * length qids.now }
    ensures bytes { Puts (several qid_bytes qids.now) at result out.old out.new }
{
    let items = qids.as_slice();
    let mut end = put_u16(out, at, items.len() as u16);
    for qid in items {
        end = put_qid(out, end, *qid);
    }
    end
}

/// A stat, which begins with the number of the bytes after its size.
fn put_stat(out: &mut [u8], at: usize, stat: &Stat<'_>) -> usize
    requires fits { FitsStat (stat_view stat.now) }
    requires room { at + stat_len (stat_view stat.now) ≤ length out.old }
    ensures next { result ≡ at + stat_len (stat_view stat.now) }
    ensures bytes { Puts (stat_bytes (stat_view stat.now)) at result out.old out.new }
{
    let size = stat.size() - 2;
    let at = put_u16(out, at, size as u16);
    let at = put_u16(out, at, stat.kind);
    let at = put_u32(out, at, stat.dev);
    let at = put_qid(out, at, stat.qid);
    let at = put_u32(out, at, stat.mode);
    let at = put_u32(out, at, stat.atime);
    let at = put_u32(out, at, stat.mtime);
    let at = put_u64(out, at, stat.length);
    let at = put_text(out, at, stat.name);
    let at = put_text(out, at, stat.uid);
    let at = put_text(out, at, stat.gid);
    put_text(out, at, stat.muid)
}

/// A stat as a message holds it, after two bytes of its length.
pub fn put_sized_stat(out: &mut [u8], at: usize, stat: &Stat<'_>) -> usize
    requires fits { FitsStat (stat_view stat.now) }
    requires room { at + 2 + stat_len (stat_view stat.now) ≤ length out.old }
    ensures next { result ≡ at + 2 + stat_len (stat_view stat.now) }
    ensures bytes { Puts (sized stat_bytes (stat_view stat.now)) at result out.old out.new }
{
    let at = put_u16(out, at, stat.size() as u16);
    put_stat(out, at, stat)
}

/// Writes a stat at the front of the buffer, as an entry of a directory's contents, and returns its
/// length, as read(5) and stat(5). What follows it stays.
pub fn write_stat(stat: &Stat<'_>, out: &mut [u8]) -> usize
    requires fits { FitsStat (stat_view stat.now) }
    requires room { stat_len (stat_view stat.now) ≤ length out.old }
    ensures len { result ≡ stat_len (stat_view stat.now) }
    ensures bytes { Writes (stat_bytes (stat_view stat.now)) result out.old out.new }
{
    put_stat(out, 0, stat)
}

/// `size[4] type[1] tag[2]` at the front of a buffer.
pub fn put_header(out: &mut [u8], size: u32, kind: u8, tag: u16)
    requires { 7 ≤ length out.old }
    ensures { Puts (number 4 size ++ number 1 kind ++ number 2 tag) 0 7 out.old out.new }
{
    let at = put_u32(out, 0, size);
    let at = put_u8(out, at, kind);
    put_u16(out, at, tag);
}
