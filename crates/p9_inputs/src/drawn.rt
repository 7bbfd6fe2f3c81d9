//! An input as a picture.

ghost use Rattle.std.specs.Prelude.{◌≡◌, IfOk, OnErr};
ghost use Rattle.p9_prepared.specs.Prepared.{prepared_of};
ghost use Rattle.p9_prepared.specs.declared.prepared.Needs.TheVariants.{Nothing};
ghost use Rattle.p9_map.specs.Picture.{IsMapped};
ghost use Rattle.p9_inputs.specs.Added.{IsAsBefore};

use crate::added::add_both;
use p9_base::NoMemory;
use p9_tree::Tree;

/// Draws an input, as [`map`](p9_map::map) does: appends its picture to `out`, and to `err` what failed,
/// and returns the exit status. There are no options.
///
/// Where an allocation fails, it returns [`NoMemory`], and `out` and `err` are as before.
pub fn map<T: Tree>(
    input: &[u8],
    out: &mut Vec<u8, T::Alloc>,
    err: &mut Vec<u8, T::Alloc>,
) -> Result<u8, NoMemory>
    ensures ok { IfOk result (λ status. IsMapped (prepared_of Nothing input.now) status
        out.old.items out.new.items err.old.items err.new.items) }
    ensures no_memory { OnErr result (IsAsBefore out.old.items out.new.items err.old.items
        err.new.items) }
{
    let alloc = *out.allocator();
    let mut printed = Vec::new(alloc);
    let mut reported = Vec::new(alloc);
    let status = p9_map::map::<T>(input, &mut printed, &mut reported)?;
    add_both(printed.as_slice(), reported.as_slice(), out, err)?;
    Ok(status)
}
