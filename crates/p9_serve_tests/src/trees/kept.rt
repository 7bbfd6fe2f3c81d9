//! A forest tells a journal of its changes. Which they are is proved, but not that the journal stays, or
//! that it is asked to settle and to sync.

use p9_base::{NodeRef, Permissions, User};
use p9_index::IndexTree;
use p9_tree::{Forest, ForestChange, Journal, Tree, Unsettled};
use std::alloc::Global;
use std::process::Abort;

// A journal that keeps nothing, and counts what it is asked for.
#[derive(Clone, Copy, Drop, PartialEq, Eq)]
struct Counts {
    notes: u32,
    settles: u32,
    syncs: u32,
}

impl Journal for Counts {
    ghost use Rattle.std.specs.Prelude.{false, []};

    ghost is_whole = { λ _. false };

    ghost stands_for = { λ _. [] };

    ghost settled = { λ _. [] };

    ghost synced = { λ _. [] };

    ghost may_stay = { λ _ _. ⊥ };

    ghost may_stand = { λ _ _. ⊥ };

    fn note(&mut self, _change: &ForestChange<'_>) {
        self.notes = self.notes.wrapping_add(1);
    }

    fn relieve(&mut self) {}

    fn settle(&mut self) -> Result<(), Unsettled> {
        self.settles = self.settles.wrapping_add(1);
        Err(Unsettled::Missing)
    }

    fn sync(&mut self) -> Result<(), Unsettled> {
        self.syncs = self.syncs.wrapping_add(1);
        Err(Unsettled::Failed)
    }
}

// The forest of a server of a root alone.
fn forest_of<T: Tree>(rt: &impl Abort, alloc: T::Alloc) -> Forest<T> {
    let mut trees = Vec::new(alloc);
    let root = T::with_root(alloc).expect(rt, "memory");
    trees.push(root).expect(rt, "memory");
    Forest::new(trees)
}

// Makes three changes, and a read, of which a journal is not told.
fn change<T: Tree>(rt: &impl Abort, forest: &mut Forest<T>) {
    let (user, server, number) = (User::new("glenda").expect(rt, "a user"), 0, 0);
    let root = NodeRef { server, number };
    forest.bump(root, user, 7);
    forest.touch(root, 8);
    forest.set_root(server, Permissions::from_bits(0o777), user, user);
    forest.cut(root, 0);
}

// Whether a forest has no journal, and so nothing is settled or synced.
fn has_none<T: Tree>(forest: &mut Forest<T>) -> bool {
    forest.journal().is_none()
        && matches!(forest.settle(), Err(Unsettled::NoJournal))
        && matches!(forest.sync(), Err(Unsettled::NoJournal))
}

// Whether a journal is asked to settle once, and to sync twice.
fn asks<T: Tree>(forest: &mut Forest<T>) -> bool {
    matches!(forest.settle(), Err(Unsettled::Missing))
        && matches!(forest.sync(), Err(Unsettled::Failed))
        && matches!(forest.sync(), Err(Unsettled::Failed))
}

// What a forest's journal has counted.
fn counted<T: Tree<Journal = Counts>>(rt: &impl Abort, alloc: T::Alloc) -> Option<Counts> {
    let mut forest = forest_of::<T>(rt, alloc);
    let had_none = has_none(&mut forest);
    forest.keep(Counts {
        notes: 0,
        settles: 0,
        syncs: 0,
    });
    change(rt, &mut forest);
    let is_asked = asks(&mut forest);
    let found = forest.journal().copied();
    drop(forest);
    if had_none && is_asked { found } else { None }
}

#[test]
fn changes_are_noted(rt: HostRuntime) {
    let counts = counted::<IndexTree<Global, Counts>>(&rt, rt.alloc());
    let wanted = Counts {
        notes: 3,
        settles: 1,
        syncs: 2,
    };
    assert!(rt; counts == Some(wanted));
}
