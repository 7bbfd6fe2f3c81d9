//! The verdict over an input in words.

ghost use Rattle.std.specs.Prelude.{◌≡◌, IfOk, OnErr};
ghost use Rattle.p9_prepared.specs.Prepared.{prepared_of};
ghost use Rattle.p9_prepared.specs.declared.prepared.Needs.TheVariants.{Nothing};
ghost use Rattle.p9_explain.specs.Explained.{IsExplained};

use crate::sealed::name_in;
use clap::ArgMatches;
use p9_base::NoMemory;
use p9_tree::Tree;

/// Explains an input, as [`explain`](p9_explain::explain) does: appends what is said of it to `out`, and
/// returns the exit status. The option `name` names the input there.
///
/// Where an allocation fails, it returns [`NoMemory`], and `out` is as before.
pub fn explain<T: Tree>(
    input: &[u8],
    options: &ArgMatches<'_>,
    out: &mut Vec<u8, T::Alloc>,
) -> Result<u8, NoMemory>
    ensures ok { IfOk result (λ status. IsExplained (prepared_of Nothing input.now) status
        out.old.items out.new.items) }
    ensures no_memory { OnErr result (out.new.items ≡ out.old.items) }
{
    p9_explain::explain::<T>(name_in(options), input, out)
}
