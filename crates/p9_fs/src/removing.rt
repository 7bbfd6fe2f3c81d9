//! Trees of a server that are removed.

use crate::connect::Client;
use crate::failure::{Failure, Outcome};
use crate::limits::{LIMITS, Left};
use crate::names::{is_inside, joined};
use crate::remote::{entries_of, remove, stat_of};
use p9_base::NoMemory;
use p9_client::{Entry, Stream};
use std::alloc::Global;

// A file or directory that is to be removed.
#[derive(Drop)]
struct Doomed {
    path: String,
    is_dir: bool,
    depth: usize,
    // Whether what is in the directory was added, so that it is empty when its turn comes.
    is_listed: bool,
}

/// Removes a file, or a directory with all that is in it. What can't be removed is reported, and the
/// rest is removed.
pub fn remove_tree<S: Stream + Drop>(
    rt: &HostRuntime,
    client: &mut Client<S>,
    path: &str,
) -> Result<(), Failure> {
    let is_dir = stat_of(rt, client, path)?.is_dir();
    let mut doomed = first_doomed(rt.alloc(), path, is_dir)?;
    remove_all(rt, client, &mut doomed)
}

// The file or directory of a path alone, which is to be removed.
fn first_doomed(alloc: Global, path: &str, is_dir: bool) -> Result<Vec<Doomed>, NoMemory> {
    let path = String::from_str(alloc, path)?;
    let mut doomed = Vec::new(alloc);
    doomed.push(Doomed {
        path,
        is_dir,
        depth: 0,
        is_listed: false,
    })?;
    Ok(doomed)
}

// Removes what is to be removed, the last one first. What can't be removed is reported, and the rest is
// removed.
fn remove_all<S: Stream + Drop>(
    rt: &HostRuntime,
    client: &mut Client<S>,
    doomed: &mut Vec<Doomed>,
) -> Result<(), Failure> {
    let mut left = Left::all(LIMITS);
    let mut outcome = Outcome::new();
    for _ in 0..u64::MAX {
        let Some(next) = doomed.pop() else {
            break;
        };
        outcome.note(remove_next(rt, client, next, &mut left, doomed))?;
    }
    outcome.end()
}

// Removes the next file, or a directory of which all is removed; else adds what is in it before it.
fn remove_next<S: Stream + Drop>(
    rt: &HostRuntime,
    client: &mut Client<S>,
    next: Doomed,
    left: &mut Left,
    doomed: &mut Vec<Doomed>,
) -> Result<(), Failure> {
    if !next.is_dir || next.is_listed {
        return remove(rt, client, next.path.as_str());
    }
    let entries = entries_of(rt, client, next.path.as_str(), left.listing())?;
    push_listed(rt, next, entries.as_slice(), left, doomed)
}

// Adds a directory again, and then what is in it.
fn push_listed(
    rt: &HostRuntime,
    next: Doomed,
    entries: &[Entry<Global>],
    left: &mut Left,
    doomed: &mut Vec<Doomed>,
) -> Result<(), Failure> {
    let dir = String::from_str(rt.alloc(), next.path.as_str())?;
    let depth = next.depth.saturating_add(1);
    doomed.push(Doomed {
        is_listed: true,
        ..next
    })?;
    push_entries(rt, dir.as_str(), depth, entries, left, doomed)
}

// Adds the entries of a directory, which are in so many directories.
fn push_entries(
    rt: &HostRuntime,
    dir: &str,
    depth: usize,
    entries: &[Entry<Global>],
    left: &mut Left,
    doomed: &mut Vec<Doomed>,
) -> Result<(), Failure> {
    for entry in entries {
        if is_inside(entry.name.as_str()) {
            push_entry(rt, dir, depth, entry, left, doomed)?;
        }
    }
    Ok(())
}

// Adds an entry of a directory.
fn push_entry(
    rt: &HostRuntime,
    dir: &str,
    depth: usize,
    entry: &Entry<Global>,
    left: &mut Left,
    doomed: &mut Vec<Doomed>,
) -> Result<(), Failure> {
    let path = joined(rt.alloc(), dir, entry.name.as_str())?;
    left.count(rt, path.as_str(), depth)?;
    doomed.push(Doomed {
        path,
        is_dir: entry.is_dir(),
        depth,
        is_listed: false,
    })?;
    Ok(())
}
