//! What is kept in a folder.

use crate::PROGRAM;
use crate::counting::nodes_of;
use p9_folder::{EXPORT, Kept, read_kept};
use p9_shell::Failure;
use p9_shell::status::DONE;
use p9_shown::AsShown;
use std::alloc::{AllocError, Global};

/// Prints what is kept in a folder, and what its recovery would do. It changes nothing.
pub(crate) fn check(rt: &HostRuntime, folder: &str) -> Result<u8, Failure> {
    let kept = read_kept(rt, PROGRAM, folder)?;
    let text = text(rt.alloc(), folder, &kept);
    drop(kept);
    PROGRAM.print(rt, text?.as_bytes())?;
    Ok(DONE)
}

// What is said of a folder.
fn text(alloc: Global, folder: &str, kept: &Kept) -> Result<String, AllocError> {
    format!(in alloc;
        "export: {}/{EXPORT}, {} bytes\njournal: {} bytes, with {} of changes: {}\ntrees: {}, files and directories: {}\n",
        AsShown(folder),
        kept.export.len(),
        kept.journal_len,
        kept.changes_len,
        kept.found,
        kept.forest.trees().len(),
        nodes_of(&kept.forest)
    )
}
