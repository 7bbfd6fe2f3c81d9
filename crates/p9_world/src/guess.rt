//! What is read in the place of a bad line, so that the lines behind it are read as if it were good.

ghost use Rattle.std.specs.Prelude.{◌≡◌};

use crate::entry::add_dir;
use crate::error::{LineFault, Stop};
use crate::line_words::NodeWords;
use crate::read::read_line;
use crate::reader::Reader;
use crate::server::push_server;
use p9_base::{NoMemory, SERVERS_MAX};
use p9_tree::Tree;

/// Changes a world as a bad line of this number and these words may have been meant to. A server joins,
/// under its name if no other has that, unless the last one has it; where none is there that a file or a directory joins, one
/// does; and a directory joins without rights where its mode, its owner or its group is bad.
pub(crate) fn go_on<T: Tree>(
    alloc: T::Alloc,
    world: &mut Reader<T>,
    kind: LineFault,
    line: u64,
    words: &[&str],
) -> Result<(), NoMemory> {
    match (kind, words) {
        (LineFault::NoServer, ["dir" | "file", ..]) => {
            guess_other_server(alloc, world, 0)?;
            read_again(alloc, world, words)
        }
        (_, ["server", name, ..]) => guess_server(alloc, world, name, line),
        (_, ["server"]) => guess_other_server(alloc, world, line),
        (LineFault::UnknownWord, [_, name]) if world.servers.is_empty() => {
            guess_server(alloc, world, name, line)
        }
        _ => guess_dir(alloc, world, kind, words),
    }
}

// Reads a line once more, now that there is a server.
fn read_again<T: Tree>(
    alloc: T::Alloc,
    world: &mut Reader<T>,
    words: &[&str],
) -> Result<(), NoMemory> {
    match read_line(alloc, world, words) {
        Ok(()) => Ok(()),
        Err(Stop::Refused(kind)) => guess_dir(alloc, world, kind, words),
        Err(Stop::NoMemory) => Err(NoMemory),
    }
}

// A server of this name joins. Where the last one has it, that goes on; where another one has it, a
// server joins that is named by its line.
fn guess_server<T: Tree>(
    alloc: T::Alloc,
    world: &mut Reader<T>,
    name: &str,
    line: u64,
) -> Result<(), NoMemory> {
    match world.server_positions.of(name) {
        None => join(alloc, world, name),
        Some(position) if position == world.servers.len().saturating_sub(1) => Ok(()),
        Some(_) => guess_other_server(alloc, world, line),
    }
}

// A server that is named by a line joins.
fn guess_other_server<T: Tree>(
    alloc: T::Alloc,
    world: &mut Reader<T>,
    line: u64,
) -> Result<(), NoMemory> {
    let name = format!(in alloc; "line:{line}")?;
    join(alloc, world, name.as_str())
}

// A server of this name joins, where there is none and there is room.
fn join<T: Tree>(alloc: T::Alloc, world: &mut Reader<T>, name: &str) -> Result<(), NoMemory> {
    if world.server_positions.has(name) || world.servers.len() >= SERVERS_MAX {
        return Ok(());
    }
    unless_refused(push_server(alloc, world, name))
}

// A directory joins without rights, where that is what is wrong with a line.
fn guess_dir<T: Tree>(
    alloc: T::Alloc,
    world: &mut Reader<T>,
    kind: LineFault,
    words: &[&str],
) -> Result<(), NoMemory> {
    match (kind, words) {
        (LineFault::WordCount | LineFault::BadMode | LineFault::BadUser, ["dir", path, ..]) => {
            let node = NodeWords {
                path,
                mode: "000",
                uid: "sys",
                gid: "sys",
            };
            unless_refused(add_dir(alloc, world, node))
        }
        _ => Ok(()),
    }
}

// A guess that is refused changes nothing.
fn unless_refused(guessed: Result<(), Stop>) -> Result<(), NoMemory> {
    match guessed {
        Ok(()) | Err(Stop::Refused(_)) => Ok(()),
        Err(Stop::NoMemory) => Err(NoMemory),
    }
}
