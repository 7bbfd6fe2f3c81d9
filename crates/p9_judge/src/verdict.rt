//! The judgement.

ghost use Rattle.std.specs.Prelude.{IfOk};
ghost use Rattle.p9_cert.specs.Policy.{policy_of};
ghost use Rattle.p9_judge.specs.Listed.{Lists};
ghost use Rattle.p9_judge.specs.Search.{IsSearch};
ghost use Rattle.p9_judge.specs.Verdict.{IsVerdict};

use crate::breach::Breach;
use crate::listed::Listed;
use crate::member::place_breach;
use crate::search::Search;
use p9_base::NoMemory;
use p9_cert::Certificate;
use p9_space::MountTable;
use p9_tree::Tree;
use p9_world::World;
use std::alloc::Allocator;

/// What the judge says.
#[derive(Debug, Drop)]
pub enum Verdict<A: Allocator> {
    /// Listed users come beyond no row of this certificate.
    Yes(Certificate<A>),
    /// They come into a hidden directory, or to one that they may use, rule or remove.
    No(Breach<A>),
}

/// Judges whether listed users may come into a hidden directory.
///
/// Places are taken in the order of their discovery, from the root place on. First the members of a
/// place are tested, in order. The first one with which something is wrong, as [`BreachKind`] says,
/// is the end of a [`Verdict::No`]. Then each member that is a directory which some listed user may
/// search or rules is passed, in order: unless it was passed before, its children are discovered,
/// by rising number. Where no place has a member with a fault, [`Verdict::Yes`] has all directories
/// that were passed.
///
/// That certificate is closed, so that [`verify`](p9_cert::verify) accepts it, if each key and
/// member of the mount table lies below its server's next number. Its rows are in every closed
/// certificate. Where there is a breach, no certificate is closed. The only error is that an
/// allocation fails. No contract says which breach of several is returned; tests do.
///
/// Each place is discovered once, since its directory is passed once. For each member of a place
/// that is discovered, its node is looked for, and the hidden directories are gone over. For a
/// member that was bound there, so are the directories above it. The listed users are gone over
/// once for all, and the groups; and once for each step of a breach. What follows from a node's
/// mode is asked of the classes of its users: everybody, its owner, the members of its group, and
/// who leads it.
///
/// [`BreachKind`]: crate::BreachKind
pub fn judge<T: Tree, A: Allocator + Copy, B: Allocator + Copy>(
    alloc: A,
    world: &World<T>,
    table: &MountTable<B>,
) -> Result<Verdict<A>, NoMemory>
    ensures { IfOk result (IsVerdict (policy_of world.now) world.now.forest table.now) }
{
    let listed = Listed::of(alloc, world)?;
    let mut search = Search::new(alloc)?;
    let verdict = verdict_of(alloc, world, &listed, table, &mut search);
    drop(search);
    drop(listed);
    verdict
}

// Judges by a search that has tested no place so far.
fn verdict_of<T: Tree, A: Allocator + Copy, B: Allocator + Copy>(
    alloc: A,
    world: &World<T>,
    listed: &Listed<A>,
    table: &MountTable<B>,
    search: &mut Search<A>,
) -> Result<Verdict<A>, NoMemory>
    requires listed { Lists world.now.users world.now.groups listed.now }
    requires search { IsSearch (policy_of world.now) world.now.forest table.now
        search.old.places.items search.old.passed.keys }
    ensures { IfOk result (IsVerdict (policy_of world.now) world.now.forest table.now) }
{
    world.forest.well_formed();
    let mut tested = 0;
    while let Some(place) = search.place(tested) {
        let parent = place.parent();
        let fault = place_breach(world, listed, table, parent.as_slice(), place.key);
        if let Some((member, kind)) = fault {
            return Ok(Verdict::No(Breach {
                steps: search.steps_to(alloc, world, tested)?,
                member,
                kind,
            }));
        }
        search.pass(world, listed, table, tested, place.key)?;
        tested += 1;
    }
    Ok(Verdict::Yes(search.certificate(alloc)?))
}
