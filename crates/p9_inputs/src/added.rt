//! What a command printed and reported, added to what is there.

ghost use Rattle.std.specs.Prelude.{◌≡◌, ◌++◌, OnErr, OnOk};
ghost use Rattle.p9_inputs.specs.Added.{Adds, IsAsBefore};

use p9_base::NoMemory;
use std::alloc::Allocator;

/// Adds what was printed to `out`, and what was reported to `err`. Where an allocation fails, it returns
/// [`NoMemory`], and both are as before.
pub(crate) fn add_both<A: Allocator>(
    printed: &[u8],
    reported: &[u8],
    out: &mut Vec<u8, A>,
    err: &mut Vec<u8, A>,
) -> Result<(), NoMemory>
    ensures ok { OnOk result (Adds printed.now reported.now out.old.items out.new.items
        err.old.items err.new.items) }
    ensures no_memory { OnErr result (IsAsBefore out.old.items out.new.items err.old.items
        err.new.items) }
{
    let before = out.len();
    out.extend_from_slice(printed)?;
    let added = err.extend_from_slice(reported);
    if added.is_err() {
        out.truncate(before);
    }
    Ok(added?)
}
