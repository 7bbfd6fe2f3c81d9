//! The command `unpack`: the trees that are kept in a folder, as directories of the disk.

use crate::PROGRAM;
use crate::accounts::accounts_text;
use crate::present::{Present, read_present};
use crate::unpacking::Unpacking;
use clap::ArgMatches;
use p9_pack::Accounts;
use p9_shell::Failure;
use p9_shell::status::{DONE, REFUSED};
use p9_shown::AsShown;
use p9_tree::Tree;
use p9_world::World;
use std::alloc::Global;
use std::fs::DirBuilder;
use std::os::unix::fs::DirBuilderExt;

// What is hidden from clients is written there too, so nobody else may read it.
const LOCAL_MODE: u32 = 0o700;

/// Writes the trees that are kept in a folder as directories of the disk, and returns the exit status.
pub(crate) fn run_unpack(rt: &HostRuntime, options: &ArgMatches<'_>) -> Result<u8, Failure> {
    let (Some(folder), Some(local)) = (options.get_str("folder"), options.get_str("local")) else {
        return Err(PROGRAM.bad_words(rt));
    };
    if !options.get_flag("preserve") {
        return unpack_kept(rt, folder, local, None);
    }
    if libc::geteuid() != 0 {
        return Err(PROGRAM.refuse(
            rt,
            "--preserve",
            &"only root gives owners",
            Failure::BadWords,
        ));
    }
    let passwd = accounts_text(rt, "--preserve", "/etc/passwd")?;
    let group = accounts_text(rt, "--preserve", "/etc/group")?;
    let accounts = Accounts::read(rt.alloc(), passwd.as_str(), group.as_str())?;
    unpack_kept(rt, folder, local, Some(&accounts))
}

// Writes what is kept in a folder into a new directory.
fn unpack_kept(
    rt: &HostRuntime,
    folder: &str,
    local: &str,
    accounts: Option<&Accounts<'_, Global>>,
) -> Result<u8, Failure> {
    let present = read_present(rt, folder)?;
    unpack_present(rt, present, local, accounts)
}

// Writes the trees of what is kept into a new directory.
fn unpack_present<T: Tree<Alloc = Global>>(
    rt: &HostRuntime,
    present: Present<T>,
    local: &str,
    accounts: Option<&Accounts<'_, Global>>,
) -> Result<u8, Failure> {
    let Present {
        export: _,
        prepared,
    } = present;
    let done = unpack_world(rt, &prepared.space.world, local, accounts);
    prepared.discard();
    done
}

// Writes the trees of a world into a new directory, each in a directory of its server's name.
fn unpack_world<T: Tree<Alloc = Global>>(
    rt: &HostRuntime,
    world: &World<T>,
    local: &str,
    accounts: Option<&Accounts<'_, Global>>,
) -> Result<u8, Failure> {
    let made = DirBuilder::new().mode(LOCAL_MODE).create(rt, local);
    PROGRAM.had(rt, local, made)?;
    let mut unpacking = Unpacking::new(accounts);
    let done = unpack_trees(rt, world, local, &mut unpacking);
    tell_end(rt, local, &unpacking, done)
}

// Writes the trees of a world, each into a directory of its server's name.
fn unpack_trees<T: Tree<Alloc = Global>>(
    rt: &HostRuntime,
    world: &World<T>,
    local: &str,
    unpacking: &mut Unpacking<'_>,
) -> Result<(), Failure> {
    for (server, tree) in world.servers.iter().zip(world.forest.trees()) {
        unpacking.tree(rt, local, server.as_str(), tree)?;
    }
    Ok(())
}

// Tells what was written, where that isn't all, and returns the exit status.
fn tell_end(
    rt: &HostRuntime,
    local: &str,
    unpacking: &Unpacking<'_>,
    done: Result<(), Failure>,
) -> Result<u8, Failure> {
    let written = unpacking.written();
    if done.is_ok() && unpacking.is_whole() {
        return Ok(DONE);
    }
    let local = AsShown(local);
    eprintln!(rt;
        "p9_admin: {local}: not all is there: {written} files and directories are written"
    )?;
    done?;
    Ok(REFUSED)
}
