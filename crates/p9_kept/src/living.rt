//! A run of a journal.

ghost use Rattle.std.specs.Prelude.{◌≡◌, ◌≤◌, [], IsTrue, length, take, ℕ};
ghost use Rattle.p9_log.specs.declared.crash.Crash.{Crash};
ghost use Rattle.p9_log.specs.declared.crash.Crash.TheVariants.{Killed, Stopped};
ghost use Rattle.p9_log.specs.Blocks.{content_in};
ghost use Rattle.p9_log.specs.Device.{LeavesOnly};
ghost use Rattle.p9_kept.specs.Edits.{stood_for};
ghost use Rattle.p9_kept.specs.Runs.{IsTaken, Lives};
ghost use Rattle.p9_kept.specs.Making.{IsAppendedAndKept};

use crate::file_journal::FileJournal;
use p9_log::Device;
use p9_tree::ForestChange;
use std::alloc::Allocator;

/// What is done with a journal.
#[derive(Clone, Copy)]
pub enum Step<'a> {
    /// A change is noted.
    Note(ForestChange<'a>),
    /// All that was noted is settled.
    Settle,
    /// All that was noted is synced.
    Sync,
}

/// Takes steps one after another, up to the first that fails, with a whole journal all of which is
/// synced. It returns how many were taken.
///
/// For each of these there is a state of the file in which the steps up to it were taken. Each crash
/// since leaves the forest after the first n changes, for an n that is not below the number of those
/// that were noted before the last settling then, where the process is killed, or the last sync then,
/// where the machine stops.
pub fn live<D: Device, A: Allocator + Copy>(
    journal: &mut FileJournal<D, A>,
    steps: &[Step<'_>],
) -> usize
    requires whole { IsTrue journal.old.whole }
    requires settled { journal.old.noted ≡ [] }
    requires synced { content_in Stopped (D.seen journal.old.log.device)
        ≡ content_in Killed (D.seen journal.old.log.device) }
    ensures few { result ≤ length steps.now }
    ensures lives { (how : Crash) (k : ℕ) → k ≤ result
        → let forest = stood_for (content_in Killed (D.seen journal.old.log.device)) in
        Lives D.seen D.moment D.left_since how steps.now (take k steps.now) forest journal.old.log.device
        journal.new.log.device }
{
    for (taken, step) in steps.iter().enumerate() {
        if !take_step(journal, step) {
            return taken;
        }
    }
    steps.len()
}

// Takes a step, and returns whether it was taken.
fn take_step<D: Device, A: Allocator + Copy>(
    journal: &mut FileJournal<D, A>,
    step: &Step<'_>,
) -> bool
    requires { IsTrue journal.old.whole }
    ensures whole { IsTrue result → IsTrue journal.new.whole }
    ensures taken { IsTrue result → IsTaken step.now (D.seen journal.old.log.device)
        journal.old.noted (D.seen journal.new.log.device) journal.new.noted }
    ensures any_moment { (how : Crash) → LeavesOnly D.moment D.left_since how
        (IsAppendedAndKept how (D.seen journal.old.log.device) journal.old.noted)
        journal.old.log.device journal.new.log.device }
{
    match step {
        Step::Note(change) => journal.note_change(change),
        Step::Settle => journal.settle_noted().is_ok(),
        Step::Sync => journal.sync_noted().is_ok(),
    }
}
