//! A forest that was kept, opened again.

ghost use Rattle.std.specs.Prelude.{◌≡◌, IfOk, IsTrue};
ghost use Rattle.p9_log.specs.declared.crash.Crash.TheVariants.{Killed};
ghost use Rattle.p9_log.specs.Blocks.{content_in};
ghost use Rattle.p9_log.specs.Log.{LeaveAsSeen};
ghost use Rattle.p9_kept.specs.Edits.{stood_for};

use crate::file_journal::FileJournal;
use crate::replaying::{Refused, replay};
use p9_log::{Crash, Device, LogError, Recovered, recover};
use p9_tree::{Forest, Journal, Tree};
use std::alloc::Allocator;
use thiserror::Error;

/// Why a forest that was kept could not be opened. Its file is closed, and is recovered as the same
/// forest by a later call.
#[derive(Clone, Copy, Debug, PartialEq, Eq, Error)]
pub enum ReopenError {
    /// The log could not be recovered.
    #[error("{0}")]
    Log(LogError),
    /// The changes in the log could not be made again.
    #[error("{0}")]
    Changes(Refused),
}

/// A forest that was kept, and its journal, which is not yet told of changes
/// ([`Forest::keep`](p9_tree::Forest::keep)).
#[derive(Drop)]
pub struct Reopened<D: Device, A: Allocator + Copy, T: Tree<Alloc = A>> {
    pub forest: Forest<T>,
    pub journal: FileJournal<D, A>,
    /// How many bytes of the file were behind the last block that counts, up to the last that isn't 0.
    pub left_out: usize,
}

/// Opens a forest whose journal is in a file that such a crash left. The journal goes on behind the
/// changes in the file.
pub fn reopen<D: Device, A: Allocator + Copy, T: Tree<Alloc = A>>(
    alloc: A,
    device: D,
    how: Crash,
) -> Result<Reopened<D, A, T>, ReopenError>
    ensures forest { IfOk result (λ r. r.forest ≡ stood_for (content_in how (D.seen device))) }
    ensures whole { IfOk result (λ r. IsTrue (⟦<FileJournal<D, A> as Journal>⟧.is_whole r.journal)) }
    ensures stands { IfOk result (λ r. ⟦<FileJournal<D, A> as Journal>⟧.stands_for r.journal
        ≡ r.forest) }
{
    match recover(alloc, device, how) {
        Ok(recovered) => resume(alloc, recovered),
        Err((error, _device)) => Err(ReopenError::Log(error)),
    }
}

/// Opens a forest whose journal is in a log that was recovered, as [`reopen`].
pub fn resume<D: Device, A: Allocator + Copy, T: Tree<Alloc = A>>(
    alloc: A,
    recovered: Recovered<D, A>,
) -> Result<Reopened<D, A, T>, ReopenError>
    requires content { content_in Killed (D.seen recovered.log.device) ≡ recovered.bytes.items }
    requires as_seen { LeaveAsSeen (D.seen recovered.log.device)
        (D.may_leave recovered.log.device) }
    ensures forest { IfOk result (λ r. r.forest ≡ stood_for recovered.bytes.items) }
    ensures whole { IfOk result (λ r. IsTrue (⟦<FileJournal<D, A> as Journal>⟧.is_whole r.journal)) }
    ensures stands { IfOk result (λ r. ⟦<FileJournal<D, A> as Journal>⟧.stands_for r.journal
        ≡ r.forest) }
{
    let forest = match replay(alloc, &recovered.bytes) {
        Ok(forest) => forest,
        Err(refused) => return Err(ReopenError::Changes(refused)),
    };
    let Ok(journal) = FileJournal::begin(alloc, recovered.log) else {
        return Err(ReopenError::Log(LogError::Memory));
    };
    Ok(Reopened {
        forest,
        journal,
        left_out: recovered.left_out,
    })
}
