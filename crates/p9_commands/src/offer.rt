//! What an input offers to a server: a guard over its name space.

ghost use Rattle.std.specs.Prelude.{◌≡◌, IfOk, OnErr};
ghost use Rattle.p9_commands.specs.Offer.{Serves, offer_of};

use p9_base::NoMemory;
use p9_guard::Guard;
use p9_index::IndexTree;
use p9_play::guard_of;
use p9_prepared::{Needs, prepare_and_report, print_stop};
use p9_tree::Tree;
use std::alloc::Allocator;

/// The guard over the name space of an input, by its certificate and without sessions, for a
/// server: that which [`Guard::new`] makes of the world, the mount table and the certificate. What
/// is reported is appended to `err`, each report as a line.
///
/// The input is prepared as [`prepare`](p9_prepared::prepare) says, with a certificate. What failed in its
/// namespace file is reported as `ns:L: TEXT`, where `L` is the number of a line of that section.
/// The first fault is reported as [`Refusal::text`] says, and the result is `None` then. The script
/// is read, and not played. The last fault is a gap of the certificate: `cert: GAP`.
///
/// Where an allocation fails, it returns [`NoMemory`], and `err` is as before.
///
/// [`Refusal::text`]: p9_prepared::Refusal::text
pub fn served_guard<A: Allocator + Copy>(
    input: &[u8],
    err: &mut Vec<u8, A>,
) -> Result<Option<Guard<IndexTree<A>>>, NoMemory>
    ensures ok { IfOk result (λ guard. Serves (offer_of input.now) err.old.items err.new.items
        guard) }
    ensures no_memory { OnErr result (err.new.items ≡ err.old.items) }
{
    served_guard_over::<IndexTree<A>>(input, err)
}

/// The guard of an input as [`served_guard`] has it, with a tree of this type for each server.
pub fn served_guard_over<T: Tree>(
    input: &[u8],
    err: &mut Vec<u8, T::Alloc>,
) -> Result<Option<Guard<T>>, NoMemory>
    ensures ok { IfOk result (λ guard. Serves (offer_of input.now) err.old.items err.new.items
        guard) }
    ensures no_memory { OnErr result (err.new.items ≡ err.old.items) }
{
    let mut reported = Vec::new(*err.allocator());
    let guard = offer(input, &mut reported)?;
    err.extend_from_slice(reported.as_slice())?;
    Ok(guard)
}

// The guard that an input offers. Where an allocation fails, a part of the reports may be there.
fn offer<T: Tree>(input: &[u8], err: &mut Vec<u8, T::Alloc>) -> Result<Option<Guard<T>>, NoMemory>
    ensures { IfOk result (λ guard. Serves (offer_of input.now) err.old.items err.new.items
        guard) }
{
    let Some(prepared) = prepare_and_report(input, Needs::Certificate, err)? else {
        return Ok(None);
    };
    match guard_of(prepared) {
        Ok(guard) => Ok(Some(guard)),
        Err(stop) => {
            print_stop(stop, err)?;
            Ok(None)
        }
    }
}
