//! A block is made in a buffer, around its bytes.

ghost use Rattle.std.specs.Prelude.{◌≡◌, ◌≤◌, ◌+◌, ◌++◌, ◌^◌, ◌∷◌, [], length, take, drop};
ghost use Rattle.p9_log.specs.Rest.{block, held};

use crate::layout::{HEAD, NEXT, OPEN};
use byteorder::{ByteOrder, LittleEndian};

/// Puts the open gates of a block and its size in front of its bytes, which are in a buffer from
/// [`HEAD`] to `end`, and the gates of the next block behind them.
pub(crate) fn stage(buffer: &mut [u8], end: usize)
    requires head { 10 ≤ end }
    requires room { end + 2 ≤ length buffer.old }
    requires few { end ≤ 2 ^ 62 }
    ensures { take (end + 2) buffer.new ≡ block 1 (held buffer.old end) ++ 1 ∷ 0 ∷ [] }
{
    let mut size = [0; 8];
    LittleEndian::write_u64(&mut size, (end - HEAD) as u64);
    put_over(buffer, 0, &OPEN);
    put_over(buffer, OPEN.len(), &size);
    put_over(buffer, end, &NEXT);
}

// Puts bytes over those of a buffer from an index on.
fn put_over(buffer: &mut [u8], at: usize, bytes: &[u8])
    requires { at + length bytes.now ≤ length buffer.old }
    ensures { buffer.new ≡ take at buffer.old ++ bytes.now ++ drop (at + length bytes.now) buffer.old }
{
    buffer[at..at + bytes.len()].copy_from_slice(bytes);
}
