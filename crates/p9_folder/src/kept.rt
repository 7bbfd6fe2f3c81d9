//! What is kept in a folder, read without changing it.

use crate::folder::{EXPORT, JOURNAL};
use crate::found::Found;
use crate::reading::{place_in, read_in};
use crate::start::last_crash;
use p9_index::IndexTree;
use p9_kept::replay;
use p9_log::{Crash, MemoryDevice, Recovered, recover};
use p9_shell::{Failure, Program};
use p9_tree::Forest;
use std::alloc::Global;

/// What is kept in a folder, as a server that opened it now would find it.
#[derive(Drop)]
pub struct Kept {
    /// The export to which the folder belongs.
    pub export: Vec<u8>,
    /// The trees that the changes make.
    pub forest: Forest<IndexTree<Global>>,
    pub found: Found,
    /// How many bytes the journal has.
    pub journal_len: usize,
    /// How many bytes of changes count.
    pub changes_len: usize,
}

/// Reads what is kept in a folder. It changes nothing, and a server may have the folder meanwhile: then
/// some of its last changes may be missing, and none before those that are there. What can't be read
/// is reported.
pub fn read_kept(rt: &HostRuntime, program: Program, folder: &str) -> Result<Kept, Failure> {
    let export = read(rt, program, folder, EXPORT)?;
    let journal = read(rt, program, folder, JOURNAL)?;
    let journal_len = journal.len();
    let how = last_crash(rt, folder);
    let (changes, left_out) = counted(rt, program, folder, journal, how)?;
    match replay(rt.alloc(), changes.as_slice()) {
        Ok(forest) => Ok(Kept {
            export,
            forest,
            found: Found { how, left_out },
            journal_len,
            changes_len: changes.len(),
        }),
        Err(refused) => Err(program.refuse(rt, folder, &refused, Failure::Refused)),
    }
}

// What a file of a folder has. That it isn't there is reported.
fn read(rt: &HostRuntime, program: Program, folder: &str, name: &str) -> Result<Vec<u8>, Failure> {
    let place = place_in(rt, folder, name)?;
    match program.had(rt, place.as_str(), read_in(rt, folder, name))? {
        Some(bytes) => Ok(bytes),
        None => {
            let why = "nothing is kept in this folder";
            Err(program.refuse(rt, folder, &why, Failure::Refused))
        }
    }
}

// The bytes of a journal that count after such a crash, and how many don't.
fn counted(
    rt: &HostRuntime,
    program: Program,
    folder: &str,
    journal: Vec<u8>,
    how: Crash,
) -> Result<(Vec<u8>, usize), Failure> {
    match recover(rt.alloc(), MemoryDevice::new(rt.alloc(), journal), how) {
        Ok(
            Recovered {
                bytes,
                left_out,
                ..
            },
        ) => Ok((bytes, left_out)),
        Err((error, _device)) => Err(program.refuse(rt, folder, &error, Failure::Refused)),
    }
}
