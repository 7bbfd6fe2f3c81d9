//! Trees whose changes can be kept in a folder.

ghost use Rattle.std.specs.Prelude.{◌≡◌, IfOk, IsTrue, OnErr, OnOk};
ghost use Rattle.p9_tree.specs.Journal.{Keeps};

use crate::PROGRAM;
use p9_disk::FileDevice;
use p9_folder::{Folder, JOURNAL, reopen_for};
use p9_index::IndexTree;
use p9_kept::{FileJournal, RenewError, Reopened};
use p9_log::Crash;
use p9_prepared::NameSpace;
use p9_shell::Failure;
use p9_tree::{Forest, Tree};
use std::alloc::Global;
use std::io;

/// The trees that are served.
pub(crate) type Trees = IndexTree<Global, FileJournal<FileDevice, Global>>;

/// Trees that are kept in a folder, as they were opened, and the journal in which their changes are kept.
#[derive(Drop)]
pub(crate) struct Opened<T: Tree> {
    pub forest: Forest<T>,
    pub journal: T::Journal,
    /// How many bytes of the journal were behind the last block that counts, up to the last that isn't 0.
    pub left_out: usize,
}

/// A tree whose changes can be kept in a folder. Whoever is generic over it knows nothing of how.
pub(crate) trait KeptTree: Tree<Alloc = Global> {
    /// Opens the trees that such a crash left in a folder, as [`reopen_for`]. What fails is reported.
    fn open(
        rt: &HostRuntime,
        folder: &Folder,
        how: Crash,
        space: &mut NameSpace<Self>,
    ) -> Result<Opened<Self>, Failure>
        ensures { IfOk result (λ opened. Keeps Self.Journal.is_whole Self.Journal.stands_for
            opened.journal opened.forest) };

    /// Makes a journal one of the fewest changes that make a forest, as [`FileJournal::renew`].
    fn renew(journal: &mut Self::Journal, forest: &Forest<Self>) -> Result<(), RenewError>
        ensures ok { OnOk result (Keeps Self.Journal.is_whole Self.Journal.stands_for journal.new
            forest.now) }
        ensures err { OnErr result (Keeps Self.Journal.is_whole Self.Journal.stands_for journal.old
            forest.now → Keeps Self.Journal.is_whole Self.Journal.stands_for journal.new
            forest.now) };

    /// How many bytes of a journal count.
    fn len(journal: &Self::Journal) -> usize;

    /// Whether nothing was noted in a journal since it was settled.
    fn is_settled(journal: &Self::Journal) -> bool;

    /// Why the last call of the system for a journal failed that did.
    fn last_error(journal: &Self::Journal) -> Option<io::Error>;

    /// Whether a sync of a journal has failed.
    fn is_unsure(journal: &Self::Journal) -> bool;
}

impl KeptTree for Trees {
    fn open(
        rt: &HostRuntime,
        folder: &Folder,
        how: Crash,
        space: &mut NameSpace<Trees>,
    ) -> Result<Opened<Trees>, Failure> {
        let place = folder.place(rt, JOURNAL)?;
        let device = PROGRAM.had(
            rt,
            place.as_str(),
            FileDevice::open(rt, folder.path(), JOURNAL),
        )?;
        match reopen_for::<FileDevice, Global, Trees>(rt.alloc(), device, how, space) {
            Ok(
                Reopened {
                    forest,
                    journal,
                    left_out,
                },
            ) => Ok(Opened {
                forest,
                journal,
                left_out,
            }),
            Err(error) => Err(PROGRAM.refuse(rt, folder.path(), &error, Failure::Refused)),
        }
    }

    fn renew(
        journal: &mut FileJournal<FileDevice, Global>,
        forest: &Forest<Trees>,
    ) -> Result<(), RenewError> {
        journal.renew(forest)
    }

    fn len(journal: &FileJournal<FileDevice, Global>) -> usize {
        journal.len()
    }

    fn is_settled(journal: &FileJournal<FileDevice, Global>) -> bool {
        journal.is_settled()
    }

    fn last_error(journal: &FileJournal<FileDevice, Global>) -> Option<io::Error> {
        journal.device().last_error()
    }

    fn is_unsure(journal: &FileJournal<FileDevice, Global>) -> bool {
        journal.device().is_unsure()
    }
}
