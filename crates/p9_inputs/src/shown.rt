//! The name space of an input, as a user meets it.

ghost use Rattle.std.specs.Prelude.{◌≡◌, IfOk, OnErr, codes};
ghost use Rattle.clap.specs.Matches.{first_value, found_of};
ghost use Rattle.p9_prepared.specs.Prepared.{prepared_of};
ghost use Rattle.p9_prepared.specs.declared.prepared.Needs.TheVariants.{Nothing};
ghost use Rattle.p9_view.specs.Tree.{IsInputShown};
ghost use Rattle.p9_inputs.specs.Added.{IsAsBefore};

use crate::added::add_both;
use clap::ArgMatches;
use p9_base::NoMemory;
use p9_tree::Tree;
use p9_view::show_tree;

/// Shows the name space of an input, as [`show_tree`] does: appends its lines to `out`, and to `err` what
/// failed, and returns the exit status. The word `user` is the user who meets it.
///
/// Where an allocation fails, it returns [`NoMemory`], and `out` and `err` are as before.
pub fn tree<T: Tree>(
    input: &[u8],
    options: &ArgMatches<'_>,
    out: &mut Vec<u8, T::Alloc>,
    err: &mut Vec<u8, T::Alloc>,
) -> Result<u8, NoMemory>
    ensures ok { IfOk result (λ status. IsInputShown (prepared_of Nothing input.now)
        (first_value (found_of options.now) (codes "user")) status out.old.items out.new.items
        err.old.items err.new.items) }
    ensures no_memory { OnErr result (IsAsBefore out.old.items out.new.items err.old.items
        err.new.items) }
{
    let alloc = *out.allocator();
    let mut printed = Vec::new(alloc);
    let mut reported = Vec::new(alloc);
    let user = options.get_str("user");
    let status = show_tree::<T>(input, user, &mut printed, &mut reported)?;
    add_both(printed.as_slice(), reported.as_slice(), out, err)?;
    Ok(status)
}
