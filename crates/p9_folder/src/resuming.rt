//! A name space that goes on with the trees that were kept of it.

ghost use Rattle.std.specs.Prelude.{◌≡◌, ◌≢◌, [], IfOk, IsFalse, IsTrue};
ghost use Rattle.p9_log.specs.declared.crash.Crash.TheVariants.{Killed};
ghost use Rattle.p9_log.specs.Blocks.{content_in};
ghost use Rattle.p9_log.specs.Log.{LeaveAsSeen};
ghost use Rattle.p9_kept.specs.Edits.{stood_for};

use p9_base::{NoMemory, SERVERS_MAX};
use p9_kept::{FileJournal, Refused, ReopenError, Reopened, resume};
use p9_log::{Crash, Device, Recovered, recover};
use p9_prepared::NameSpace;
use p9_space::is_table_given;
use p9_tree::{Forest, Journal, NEXT_MAX, Tree};
use std::alloc::Allocator;

/// Puts other trees in the place of those of a name space, where they may be later ones of the same: they
/// have as many servers, and each number that the name space names was given in them. Returns whether
/// it did. Else the trees are dropped, and the name space is unchanged.
pub fn go_on_with<T: Tree>(space: &mut NameSpace<T>, forest: Forest<T>) -> bool
    ensures yes { IsTrue result → space.new ≡ record space.old {
      world = record space.old.world { forest = forest };
    } }
    ensures no { IsFalse result → space.new ≡ space.old }
{
    if !is_table_given(&forest, &space.table) {
        drop(forest);
        return false;
    }
    space.world.go_on_with(forest)
}

/// Opens the forest that is kept in a file, as [`p9_kept::reopen`], for a name space that goes on with it.
/// Where the file has changes the trees of the name space may be bare then, since their memory is used for
/// those that are kept: each is a root alone, with the same next number. Where it has none, the forest has
/// no trees, and the name space is unchanged.
pub fn reopen_for<D: Device, A: Allocator + Copy, T: Tree<Alloc = A>>(
    alloc: A,
    device: D,
    how: Crash,
    space: &mut NameSpace<T>,
) -> Result<Reopened<D, A, T>, ReopenError>
    ensures forest { IfOk result (λ r. r.forest ≡ stood_for (content_in how (D.seen device))) }
    ensures whole { IfOk result (λ r. IsTrue (⟦<FileJournal<D, A> as Journal>⟧.is_whole r.journal)) }
    ensures stands { IfOk result (λ r. ⟦<FileJournal<D, A> as Journal>⟧.stands_for r.journal
        ≡ r.forest) }
    ensures unchanged { IfOk result (λ r. r.forest ≡ [] → space.new ≡ space.old) }
    ensures others { space.new ≡ record space.old {
      world = record space.old.world { forest = space.new.world.forest };
    } }
{
    let recovered = match recover(alloc, device, how) {
        Ok(recovered) => recovered,
        Err((error, _device)) => return Err(ReopenError::Log(error)),
    };
    if recovered.bytes.is_empty() {
        resume(alloc, recovered)
    } else {
        resume_bare(alloc, recovered, space)
    }
}

// Opens the forest of a log that has changes, once the trees of a name space are bare.
fn resume_bare<D: Device, A: Allocator + Copy, T: Tree<Alloc = A>>(
    alloc: A,
    recovered: Recovered<D, A>,
    space: &mut NameSpace<T>,
) -> Result<Reopened<D, A, T>, ReopenError>
    requires content { content_in Killed (D.seen recovered.log.device) ≡ recovered.bytes.items }
    requires as_seen { LeaveAsSeen (D.seen recovered.log.device)
        (D.may_leave recovered.log.device) }
    ensures forest { IfOk result (λ r. r.forest ≡ stood_for recovered.bytes.items) }
    ensures whole { IfOk result (λ r. IsTrue (⟦<FileJournal<D, A> as Journal>⟧.is_whole r.journal)) }
    ensures stands { IfOk result (λ r. ⟦<FileJournal<D, A> as Journal>⟧.stands_for r.journal
        ≡ r.forest) }
    ensures some { IfOk result (λ r. r.forest ≢ []) }
    ensures others { space.new ≡ record space.old {
      world = record space.old.world { forest = space.new.world.forest };
    } }
{
    lay_bare(alloc, space);
    let reopened = resume(alloc, recovered)?;
    if reopened.forest.trees().is_empty() {
        return Err(ReopenError::Changes(Refused::Damaged));
    }
    Ok(reopened)
}

// Puts bare trees in the place of those of a name space. Where that can't be done, it is unchanged.
fn lay_bare<T: Tree>(alloc: T::Alloc, space: &mut NameSpace<T>)
    ensures { space.new ≡ record space.old {
      world = record space.old.world { forest = space.new.world.forest };
    } }
{
    let Ok(trees) = bare_trees_of(alloc, space) else {
        return;
    };
    if trees.len() <= SERVERS_MAX {
        go_on_with(space, Forest::new(trees));
    }
}

// A bare tree for each tree of a name space.
fn bare_trees_of<T: Tree>(
    alloc: T::Alloc,
    space: &NameSpace<T>,
) -> Result<Vec<T, T::Alloc>, NoMemory> {
    bare_trees(alloc, space.world.forest.trees())
}

// A bare tree for each of these.
fn bare_trees<T: Tree>(alloc: T::Alloc, trees: &[T]) -> Result<Vec<T, T::Alloc>, NoMemory> {
    let mut bare = Vec::new(alloc);
    for tree in trees {
        bare.push(bare_tree(alloc, tree)?)?;
    }
    Ok(bare)
}

// A tree of a root alone, with the next number of another one.
fn bare_tree<T: Tree>(alloc: T::Alloc, tree: &T) -> Result<T, NoMemory> {
    let mut bare = T::with_root(alloc)?;
    let next = tree.next();
    if bare.next() <= next && next <= NEXT_MAX {
        bare.skip_to(next);
    }
    Ok(bare)
}
