//! What keeps the changes of a forest.

ghost use Rattle.std.specs.Prelude.{◌≡◌, ◌⊎◌, Bool, IsTrue, List, OnOk};
ghost use Rattle.p9_tree.specs.ForestChange.{forest_edit_of};
ghost use Rattle.p9_tree.specs.ForestEdit.{forest_edited};
ghost use Rattle.p9_tree.specs.Server.{Server};

use crate::forest_change::ForestChange;

/// Why the changes of a forest are not known to be kept.
#[derive(Clone, Copy, Debug, PartialEq, Eq)]
pub enum Unsettled {
    /// The forest has no journal. No journal returns this.
    NoJournal,
    /// A change is missing, since there was no room to note it.
    Missing,
    /// What the journal is kept on has failed.
    Failed,
}

/// What keeps the changes of a forest, from some forest on.
///
/// A journal that is *whole* stands for a forest: the one that it began with, and all changes that
/// were noted since. A journal that misses a change isn't whole, and never is again. It is *settled*
/// for the forest that a process which is killed keeps, and *synced* for the one that a machine
/// which stops keeps. What is recovered after a crash at this moment is one of the forests of
/// `may_stay` where the process is killed, and one of those of `may_stand` where the machine stops.
/// So nothing of a change is recovered before all that was noted with it is settled.
pub trait Journal: Sized + Drop {
    ghost is_whole: { Self → Bool };

    ghost stands_for: { Self → List Server };

    ghost settled: { Self → List Server };

    ghost synced: { Self → List Server };

    ghost may_stay: { Self → List Server → Type 0 };

    ghost may_stand: { Self → List Server → Type 0 };

    /// Notes a change. Where the journal can't note it, it isn't whole from then on. A crash has no
    /// part in this.
    fn note(&mut self, change: &ForestChange<'_>)
        ensures whole { IsTrue (is_whole self.new) → IsTrue (is_whole self.old) }
        ensures noted { IsTrue (is_whole self.new) → stands_for self.new
            ≡ forest_edited (forest_edit_of change.entry.now) (stands_for self.old) }
        ensures settled { settled self.new ≡ settled self.old }
        ensures synced { synced self.new ≡ synced self.old }
        ensures stay { (forest : List Server) → may_stay self.new forest
            → may_stay self.old forest }
        ensures stand { (forest : List Server) → may_stand self.new forest
            → may_stand self.old forest };

    /// Settles where much was noted since, so that what a journal holds in memory is bounded. Where
    /// that fails it isn't whole from then on. A caller does so between events, never within one.
    fn relieve(&mut self)
        ensures whole { IsTrue (is_whole self.new) → IsTrue (is_whole self.old) }
        ensures same { IsTrue (is_whole self.new) → stands_for self.new ≡ stands_for self.old }
        ensures settled { IsTrue (is_whole self.new) → (settled self.new ≡ settled self.old)
            ⊎ (settled self.new ≡ stands_for self.new) }
        ensures synced { IsTrue (is_whole self.new) → synced self.new ≡ synced self.old }
        ensures stay { (forest : List Server) → may_stay self.new forest
            → may_stay self.old forest ⊎ (forest ≡ settled self.old)
            ⊎ (forest ≡ stands_for self.old) }
        ensures stand { (forest : List Server) → may_stand self.new forest
            → may_stand self.old forest ⊎ (forest ≡ synced self.old) };

    /// Makes what was noted outlast the process, all of it or nothing. After an `Ok`, a process that
    /// is killed has lost nothing of it. After an `Err` the journal may be whole or not.
    fn settle(&mut self) -> Result<(), Unsettled>
        ensures whole { IsTrue (is_whole self.new) → IsTrue (is_whole self.old) }
        ensures same { IsTrue (is_whole self.new) → stands_for self.new ≡ stands_for self.old }
        ensures ok { OnOk result (IsTrue (is_whole self.new)) }
        ensures settled { OnOk result (settled self.new ≡ stands_for self.new) }
        ensures synced { OnOk result (synced self.new ≡ synced self.old) }
        ensures kept { OnOk result ((forest : List Server) → may_stay self.new forest
            → forest ≡ stands_for self.new) }
        ensures stay { (forest : List Server) → may_stay self.new forest
            → may_stay self.old forest ⊎ (forest ≡ settled self.old)
            ⊎ (forest ≡ stands_for self.old) }
        ensures stand { (forest : List Server) → may_stand self.new forest
            → may_stand self.old forest ⊎ (forest ≡ synced self.old) };

    /// Makes what was noted outlast the machine, all of it or nothing. After an `Ok`, neither a
    /// process that is killed nor a machine that stops has lost anything of it. After an `Err` the
    /// journal may be whole or not.
    fn sync(&mut self) -> Result<(), Unsettled>
        ensures whole { IsTrue (is_whole self.new) → IsTrue (is_whole self.old) }
        ensures same { IsTrue (is_whole self.new) → stands_for self.new ≡ stands_for self.old }
        ensures ok { OnOk result (IsTrue (is_whole self.new)) }
        ensures settled { OnOk result (settled self.new ≡ stands_for self.new) }
        ensures synced { OnOk result (synced self.new ≡ stands_for self.new) }
        ensures kept { OnOk result ((forest : List Server)
            → may_stay self.new forest ⊎ may_stand self.new forest
            → forest ≡ stands_for self.new) }
        ensures stay { (forest : List Server) → may_stay self.new forest
            → may_stay self.old forest ⊎ (forest ≡ settled self.old)
            ⊎ (forest ≡ stands_for self.old) }
        ensures stand { (forest : List Server) → may_stand self.new forest
            → may_stand self.old forest ⊎ (forest ≡ synced self.old)
            ⊎ (forest ≡ stands_for self.old) };
}

/// The journal of trees that are kept nowhere: it is never whole, and nothing is settled.
#[derive(Drop)]
pub struct NoJournal;

impl Journal for NoJournal {
    ghost use Rattle.std.specs.Prelude.{false, []};

    ghost is_whole = { λ _. false };

    ghost stands_for = { λ _. [] };

    ghost settled = { λ _. [] };

    ghost synced = { λ _. [] };

    ghost may_stay = { λ _ _. ⊥ };

    ghost may_stand = { λ _ _. ⊥ };

    fn note(&mut self, _change: &ForestChange<'_>) {}

    fn relieve(&mut self) {}

    fn settle(&mut self) -> Result<(), Unsettled> {
        Err(Unsettled::Missing)
    }

    fn sync(&mut self) -> Result<(), Unsettled> {
        Err(Unsettled::Missing)
    }
}
