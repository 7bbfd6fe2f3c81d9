//! What is kept in a folder, as it is now.

use crate::PROGRAM;
use p9_folder::{Found, Kept, go_on_with, read_kept};
use p9_index::IndexTree;
use p9_kept::Refused;
use p9_prepared::{NameSpace, Needs, Prepared, Stop, prepare, print_stop};
use p9_shell::{Failure, tell};
use p9_shown::AsShown;
use p9_tree::{Forest, Tree};
use std::alloc::Global;
use thiserror::Error;

// Why an input can't go on with the trees that are kept in a folder.
#[derive(Clone, Copy, Debug, Error)]
enum NotPresent {
    #[error("{0}")]
    Refused(Refused),
    #[error("what is kept is not of this export")]
    OtherExport,
}

/// What is kept in a folder: the export with which it was made, and that input prepared, with the trees as
/// they are now.
pub(crate) struct Present<T: Tree> {
    pub export: Vec<u8>,
    pub prepared: Prepared<T>,
}

/// Reads what is kept in a folder, and changes nothing there. Why it can't be had is reported, and how many
/// bytes of changes don't count, where there are such.
pub(crate) fn read_present(
    rt: &HostRuntime,
    folder: &str,
) -> Result<Present<IndexTree<Global>>, Failure> {
    let Kept {
        export,
        forest,
        found,
        journal_len: _,
        changes_len: _,
    } = read_kept(rt, PROGRAM, folder)?;
    present_of(rt, folder, export, forest, found)
}

// An input with the trees that are kept, which is reported where it can't be had.
fn present_of<T: Tree<Alloc = Global>>(
    rt: &HostRuntime,
    folder: &str,
    export: Vec<u8>,
    forest: Forest<T>,
    found: Found,
) -> Result<Present<T>, Failure> {
    match prepared_of(rt, folder, export.as_slice(), found) {
        Ok(prepared) => {
            let prepared = gone_on(rt, folder, prepared, forest, found)?;
            Ok(Present { export, prepared })
        }
        Err(failure) => {
            drop(forest);
            Err(failure)
        }
    }
}

// The export of a folder, prepared. How many bytes of changes don't count is told before.
fn prepared_of<T: Tree<Alloc = Global>>(
    rt: &HostRuntime,
    folder: &str,
    export: &[u8],
    found: Found,
) -> Result<Prepared<T>, Failure> {
    if found.is_cut() {
        let folder = AsShown(folder);
        eprintln!(rt; "note: {folder}: {found}")?;
    }
    match prepare::<T>(rt.alloc(), export, Needs::Nothing) {
        Ok(prepared) => Ok(prepared),
        Err(error) => Err(report_stop(rt, error.stop)),
    }
}

// An input that goes on with the trees that are kept. Where none are kept yet, it has its own.
fn gone_on<T: Tree<Alloc = Global>>(
    rt: &HostRuntime,
    folder: &str,
    prepared: Prepared<T>,
    forest: Forest<T>,
    found: Found,
) -> Result<Prepared<T>, Failure> {
    let mut prepared = prepared;
    match why_not_gone_on(&mut prepared.space, forest, found) {
        None => Ok(prepared),
        Some(why) => {
            prepared.discard();
            Err(PROGRAM.refuse(rt, folder, &why, Failure::Refused))
        }
    }
}

// Has a name space go on with the trees that are kept, or says why it can't. Where none are kept yet, it has
// its own.
fn why_not_gone_on<T: Tree>(
    space: &mut NameSpace<T>,
    forest: Forest<T>,
    found: Found,
) -> Option<NotPresent> {
    if forest.trees().is_empty() {
        drop(forest);
        return found
            .is_cut()
            .then_some(NotPresent::Refused(Refused::Damaged));
    }
    (!go_on_with(space, forest)).then_some(NotPresent::OtherExport)
}

/// Reports why an input is not prepared.
pub(crate) fn report_stop(rt: &HostRuntime, stop: Stop) -> Failure {
    let mut text = Vec::new(rt.alloc());
    match print_stop(stop, &mut text) {
        Ok(()) => match tell(rt, text.as_slice()) {
            Ok(()) => Failure::Refused,
            Err(error) => Failure::from(error),
        },
        Err(error) => Failure::from(error),
    }
}
