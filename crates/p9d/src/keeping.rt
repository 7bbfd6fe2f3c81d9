//! What is kept of an export.

ghost use Rattle.p9_tree.specs.Journal.{Keeps};

use crate::PROGRAM;
use crate::kept_tree::{KeptTree, Opened};
use p9_base::NoMemory;
use p9_folder::{Folder, Found, go_on_with, last_crash, note_start};
use p9_judge::{Verdict, judge};
use p9_kept::Refused;
use p9_log::Crash;
use p9_prepared::Prepared;
use p9_shell::{Failure, tell};
use p9_shown::AsShown;
use p9_tree::Forest;
use std::fmt::Display;

/// Gives an input that is prepared the trees that are kept in a folder, with a certificate over them,
/// and the journal in which their changes are kept. In a folder without trees its own are kept.
pub(crate) fn keep_in<T: KeptTree>(
    rt: &HostRuntime,
    folder: &Folder,
    prepared: &mut Prepared<T>,
) -> Result<(), Failure> {
    let how = last_crash(rt, folder.path());
    let opened = T::open(rt, folder, how, &mut prepared.space)?;
    match noted(rt, folder, how) {
        Ok(()) => take_in(rt, folder, how, opened, prepared),
        Err(failure) => {
            drop(opened);
            Err(failure)
        }
    }
}

// Keeps that a folder is written in this start of the machine, where that isn't kept yet.
fn noted(rt: &HostRuntime, folder: &Folder, how: Crash) -> Result<(), Failure> {
    match how {
        Crash::Killed => Ok(()),
        Crash::Stopped => note_start(rt, folder),
    }
}

// Gives an input that is prepared the trees that were opened. Where there are none, its own are kept.
fn take_in<T: KeptTree>(
    rt: &HostRuntime,
    folder: &Folder,
    how: Crash,
    opened: Opened<T>,
    prepared: &mut Prepared<T>,
) -> Result<(), Failure>
    requires { Keeps T.Journal.is_whole T.Journal.stands_for opened.journal opened.forest }
{
    let Opened {
        forest,
        journal,
        left_out,
    } = opened;
    let found = Found { how, left_out };
    if forest.trees().is_empty() {
        drop(forest);
        return begin(rt, folder, journal, found, prepared);
    }
    let mut forest = forest;
    forest.keep(journal);
    match tell_of(rt, folder, &found) {
        Ok(()) => go_on(rt, folder, forest, prepared),
        Err(failure) => {
            drop(forest);
            Err(failure)
        }
    }
}

// Keeps the trees of an input in a folder that has none. A journal that has something, of which nothing
// counts, is damaged: its first trees come into their place whole.
fn begin<T: KeptTree>(
    rt: &HostRuntime,
    folder: &Folder,
    journal: T::Journal,
    found: Found,
    prepared: &mut Prepared<T>,
) -> Result<(), Failure> {
    let mut journal = journal;
    if found.is_cut() {
        drop(journal);
        return Err(PROGRAM.refuse(rt, folder.path(), &Refused::Damaged, Failure::Refused));
    }
    let forest = &mut prepared.space.world.forest;
    match T::renew(&mut journal, forest) {
        Ok(()) => {
            forest.keep(journal);
            tell_of(rt, folder, &"begins with the trees of the export")
        }
        Err(_) => {
            let failure = failed::<T>(rt, folder, &journal);
            drop(journal);
            Err(failure)
        }
    }
}

// Gives an input that is prepared the trees that were kept, with a certificate over them.
fn go_on<T: KeptTree>(
    rt: &HostRuntime,
    folder: &Folder,
    forest: Forest<T>,
    prepared: &mut Prepared<T>,
) -> Result<(), Failure> {
    let space = &mut prepared.space;
    if !go_on_with(space, forest) {
        let why = "what is kept is not of this export";
        return Err(PROGRAM.refuse(rt, folder.path(), &why, Failure::Refused));
    }
    match judge(rt.alloc(), &space.world, &space.table) {
        Ok(Verdict::Yes(certificate)) => {
            prepared.certificate = Some(certificate);
            Ok(())
        }
        Ok(Verdict::No(_)) => {
            let why = "what is kept has a way into a hidden directory";
            Err(PROGRAM.refuse(rt, folder.path(), &why, Failure::Refused))
        }
        Err(NoMemory) => Err(Failure::NoMemory),
    }
}

// Tells of a folder.
fn tell_of<D: Display>(rt: &HostRuntime, folder: &Folder, what: &D) -> Result<(), Failure> {
    let line = format!(in rt.alloc(); "p9d: {}: {what}\n", AsShown(folder.path()))?;
    Ok(tell(rt, line.as_bytes())?)
}

/// Reports why changes can't be kept.
pub(crate) fn failed<T: KeptTree>(
    rt: &HostRuntime,
    folder: &Folder,
    journal: &T::Journal,
) -> Failure {
    match T::last_error(journal) {
        Some(error) => PROGRAM.failed(rt, folder.path(), error),
        None => Failure::NoMemory,
    }
}
