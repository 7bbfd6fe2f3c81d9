//! Directories of the disk, each a server.

use crate::node::{Entry, Level, Packing};
use crate::reason::Reason;
use crate::source::Source;
use p9_shell::Failure;
use p9_world::{PlainName, ServerName};
use std::alloc::AllocError;

/// Packs the directory of a source, with everything below it, as a server.
pub(crate) fn pack_tree(
    rt: &HostRuntime,
    packing: &mut Packing<'_>,
    source: Source,
) -> Result<(), Failure> {
    let Source { server, root } = source;
    let Some(root) = packing.dir(rt, &server, &[], root)? else {
        return Ok(());
    };
    let mut levels = Vec::new(rt.alloc());
    levels.push(root)?;
    pack_levels(rt, packing, &server, levels)
}

// Packs what is below the last of some directories, and then below those before it.
fn pack_levels(
    rt: &HostRuntime,
    packing: &mut Packing<'_>,
    server: &ServerName,
    mut levels: Vec<Level>,
) -> Result<(), Failure> {
    let mut names = Vec::new(rt.alloc());
    for _ in 0..u64::MAX {
        if levels.is_empty() {
            break;
        }
        pack_next(rt, packing, server, &mut names, &mut levels)?;
    }
    Ok(())
}

// Packs the next entry of the last directory, or takes that directory away where there is no more.
fn pack_next(
    rt: &HostRuntime,
    packing: &mut Packing<'_>,
    server: &ServerName,
    names: &mut Vec<PlainName>,
    levels: &mut Vec<Level>,
) -> Result<(), Failure> {
    let Some(level) = levels.last_mut() else {
        return Ok(());
    };
    let Some(pair) = level.names.pop() else {
        let _ = levels.pop();
        let _ = names.pop();
        return Ok(());
    };
    let below = pack_name(rt, packing, server, names, level, &pair)?;
    let (name, _) = pair;
    level.before = Some(name);
    if let Some(below) = below {
        levels.push(below)?;
    }
    Ok(())
}

// Packs the entry of a directory that has these names in the world and on the disk. One whose name in
// the world another entry gets too is left out. What is returned is that of `pack_entry`.
fn pack_name(
    rt: &HostRuntime,
    packing: &mut Packing<'_>,
    server: &ServerName,
    names: &mut Vec<PlainName>,
    level: &Level,
    pair: &(String, String),
) -> Result<Option<Level>, Failure> {
    let (name, on_disk) = (pair.0.as_str(), pair.1.as_str());
    let disk = joined(rt, level.disk.as_str(), on_disk)?;
    if level.is_taken(name, on_disk) {
        return packing.none(rt, disk.as_str(), Reason::SameName);
    }
    let entry = Entry {
        dir: &level.dir,
        name: on_disk,
        disk: disk.as_str(),
    };
    pack_entry(rt, packing, server, names, name, entry)
}

// Packs an entry of the directory of these names under a name, after which they are those of a
// directory that is returned.
fn pack_entry(
    rt: &HostRuntime,
    packing: &mut Packing<'_>,
    server: &ServerName,
    names: &mut Vec<PlainName>,
    name: &str,
    entry: Entry<'_>,
) -> Result<Option<Level>, Failure> {
    match PlainName::new(name) {
        Ok(name) => names.push(name)?,
        Err(unfit) => return packing.none(rt, entry.disk, Reason::from(unfit)),
    }
    let below = packing.entry(rt, server, names.as_slice(), entry)?;
    if below.is_none() {
        let _ = names.pop();
    }
    Ok(below)
}

// The path of a name in a directory.
fn joined(rt: &HostRuntime, dir: &str, name: &str) -> Result<String, AllocError> {
    let mut path = String::from_str(rt.alloc(), dir)?;
    if !dir.ends_with('/') {
        path.push('/')?;
    }
    path.push_str(name)?;
    Ok(path)
}
