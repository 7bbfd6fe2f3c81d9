//! Buffers that take their room at once, and are written over no further than they were used.

ghost use Rattle.std.specs.Prelude.{◌≡◌, ◌≤◌, [], IfOk, take, vec_capacity, vec_len};
ghost use Rattle.p9_wire.specs.Frame.{msize_max};

use p9_base::NoMemory;
use p9_wire::MSIZE_MAX;
use std::alloc::Allocator;

/// An empty buffer with room for the greatest frame. Nothing is written to that room yet, so most
/// systems give no real memory for it so far.
pub(crate) fn with_room<A: Allocator + Copy>(alloc: A) -> Result<Vec<u8, A>, NoMemory>
    ensures empty { IfOk result (λ bytes. bytes.items ≡ []) }
    ensures len { IfOk result (λ bytes. vec_len bytes ≡ 0) }
    ensures room { IfOk result (λ bytes. msize_max ≤ vec_capacity bytes) }
{
    Ok(Vec::with_capacity(alloc, MSIZE_MAX as usize)?)
}

/// Lengthens a buffer by zeros to at least so many bytes, for which it has room.
pub(crate) fn lengthen<A: Allocator>(bytes: &mut Vec<u8, A>, len: usize)
    requires room { len ≤ vec_capacity bytes.old }
    requires small { len ≤ msize_max }
    requires so_far { vec_len bytes.old ≤ msize_max }
    ensures enough { len ≤ vec_len bytes.new }
    ensures longer { vec_len bytes.old ≤ vec_len bytes.new }
    ensures small { vec_len bytes.new ≤ msize_max }
    ensures room { vec_capacity bytes.old ≤ vec_capacity bytes.new }
    ensures kept { take (vec_len bytes.old) bytes.new.items ≡ bytes.old.items }
{
    if bytes.len() < len {
        let _lengthened = bytes.resize(len, 0);
    }
}
