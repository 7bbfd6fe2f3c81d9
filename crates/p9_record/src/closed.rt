//! Closed records: changes with a checksum behind them.

ghost use Rattle.std.specs.Prelude.{◌≡◌, ◌≤◌, ◌<◌, ◌+◌, ◌^◌, IsTrue, length};
ghost use Rattle.p9_wire.specs.FieldReading.{Gives};
ghost use Rattle.p9_wire.specs.Writing.{Puts};
ghost use Rattle.p9_tree.specs.ForestChange.{forest_edit_of};
ghost use Rattle.p9_record.specs.Closed.{checksum as checksum_of, closed_edit_at, closed_fixed_max};
ghost use Rattle.p9_record.specs.Closed.{IsEarlier, closed_spelling};
ghost use Rattle.p9_record.specs.Closed.{earlier_checksum as earlier_checksum_of};
ghost use Rattle.p9_record.specs.Record.{FitsForestEdit, forest_data_of};

use crate::reading::take_change;
use crate::writing::put_change;
use p9_tree::ForestChange;
use p9_wire::put::put_bytes;
use std::hash::{DefaultHasher, FoldHasher, Hasher};

const CHECKSUM_LEN: usize = 8;

// What the standard library's `FoldHasher` computes of the bytes, in eight bytes, the lowest first.
#[tactic(auto, unfolding(crate::specs::Closed::checksum))]
fn checksum(bytes: &[u8]) -> [u8; CHECKSUM_LEN]
    ensures { result ≡ checksum_of bytes.now }
{
    let mut hasher = FoldHasher::default();
    hasher.write(bytes);
    hasher.finish().to_le_bytes()
}

/// Puts a change of a forest into the buffer at the index, and its checksum behind it. It returns the
/// index after them. All else in the buffer is unchanged.
pub fn put_closed(buffer: &mut [u8], at: usize, change: &ForestChange<'_>) -> usize
    requires small { length (forest_data_of (forest_edit_of change.now)) < 2 ^ 32 }
    requires room { at + closed_fixed_max + length (forest_data_of (forest_edit_of change.now))
        ≤ length buffer.old }
    ensures next { result
        ≤ at + closed_fixed_max + length (forest_data_of (forest_edit_of change.now)) }
    ensures bytes { Puts (closed_spelling (forest_edit_of change.now)) at result buffer.old buffer.new }
    ensures fits { FitsForestEdit (forest_edit_of change.now) }
{
    let end = put_change(buffer, at, change);
    let sum = checksum(&buffer[at..end]);
    put_bytes(buffer, end, &sum)
}

/// The change of a forest that the bytes begin with, and the bytes after its checksum. It is `None`
/// where they begin with no such change, or its checksum doesn't follow it.
#[tactic(auto, unfolding(crate::specs::Closed::closed_edit_at))]
pub fn take_closed(bytes: &[u8]) -> Option<(ForestChange<'_>, &[u8])>
    ensures { Gives (λ x. (forest_edit_of x.0, x.1.now)) result (closed_edit_at bytes.now) }
{
    let Some((change, rest)) = take_change(bytes) else {
        return None;
    };
    let spelling = &bytes[..bytes.len() - rest.len()];
    if rest.len() < CHECKSUM_LEN {
        return None;
    }
    let (sum, after) = rest.split_at(CHECKSUM_LEN);
    if sum != checksum(spelling).as_slice() {
        return None;
    }
    Some((change, after))
}

// The checksum that records had in earlier versions: the SipHash-1-3 of the bytes, in eight bytes, the
// lowest first.
#[tactic(auto, unfolding(crate::specs::Closed::earlier_checksum))]
fn earlier_checksum(bytes: &[u8]) -> [u8; CHECKSUM_LEN]
    ensures { result ≡ earlier_checksum_of bytes.now }
{
    let mut sip = DefaultHasher::new();
    sip.write(bytes);
    sip.finish().to_le_bytes()
}

/// Whether the bytes begin with a change behind which there is the checksum of an earlier version.
pub fn is_earlier(bytes: &[u8]) -> bool
    ensures { IsTrue result → IsEarlier bytes.now }
{
    let Some((_change, rest)) = take_change(bytes) else {
        return false;
    };
    let spelling = &bytes[..bytes.len() - rest.len()];
    if rest.len() < CHECKSUM_LEN {
        return false;
    }
    let (sum, _behind) = rest.split_at(CHECKSUM_LEN);
    sum == earlier_checksum(spelling).as_slice()
}
