//! The directories of the disk that the command line names, each of which becomes a server, and those
//! that are to be hidden in them.

ghost use Rattle.std.specs.Prelude.{◌≡◌};
ghost use Rattle.p9_admin.specs.Server.{new_server};

use crate::PROGRAM;
use crate::attributes::{Attributes, attributes_of};
use crate::hide::{Hide, HideFault, hide_in, is_below, is_hidden};
use crate::node::OpenDir;
use crate::reason::Reason;
use crate::rename::{Rename, renamed_place};
use crate::settings::Settings;
use p9_base::{NoMemory, Stop};
use p9_clean::elements;
use p9_files::Dir;
use p9_pack::Accounts;
use p9_shell::Failure;
use p9_world::ServerName;
use std::alloc::{AllocError, Global};
use std::fs::{Metadata, symlink_metadata};
use std::io::{self, ErrorKind};
use std::path::Path;

/// A directory of the disk that becomes a server.
#[derive(Drop)]
pub(crate) struct Source {
    pub server: ServerName,
    pub root: OpenDir,
}

/// The directories of the disk, each opened. Where one can't be had, that is reported.
pub(crate) fn sources_in(
    rt: &HostRuntime,
    settings: &Settings,
    accounts: &Accounts<'_, Global>,
    name: Option<&str>,
    dirs: &[&str],
) -> Result<Vec<Source>, Failure> {
    let mut servers = Vec::new(rt.alloc());
    let mut sources = Vec::new(rt.alloc());
    for disk in dirs {
        sources.push(next_source(rt, settings, accounts, name, disk, &mut servers)?)?;
    }
    Ok(sources)
}

// The next directory of the disk, whose server is added to those before it. Where it can't be had, that
// is reported.
fn next_source(
    rt: &HostRuntime,
    settings: &Settings,
    accounts: &Accounts<'_, Global>,
    name: Option<&str>,
    disk: &str,
    servers: &mut Vec<ServerName>,
) -> Result<Source, Failure> {
    let server = server_in(rt, name, disk, servers.as_slice())?;
    servers.push(server)?;
    source_of(rt, settings, accounts, server, disk)
}

// The servers of directories.
fn servers_of(alloc: Global, sources: &[Source]) -> Result<Vec<ServerName>, AllocError> {
    let mut servers = Vec::new(alloc);
    for source in sources {
        servers.push(source.server)?;
    }
    Ok(servers)
}

// The server of a directory, unless its name is unfit or taken, which is reported.
fn server_in(
    rt: &HostRuntime,
    name: Option<&str>,
    disk: &str,
    servers: &[ServerName],
) -> Result<ServerName, Failure> {
    let text = name.or(Path::new(disk).file_name()).unwrap_or("");
    match (new_server(text, servers), name) {
        (Ok(server), _) => Ok(server),
        (Err(reason), Some(name)) => Err(PROGRAM.refuse_option(rt, "--name", name, &reason)),
        (Err(reason), None) => Err(PROGRAM.refuse_option(rt, "directory", disk, &reason)),
    }
}

// The server of a name, unless a world can't have it or one of these has it.
fn new_server(name: &str, servers: &[ServerName]) -> Result<ServerName, Reason>
    ensures { result ≡ new_server name.now servers.now }
{
    let server = match ServerName::new(name) {
        Ok(server) => server,
        Err(unfit) => return Err(Reason::Unfit(unfit)),
    };
    if servers.contains(&server) {
        return Err(Reason::SameServer);
    }
    Ok(server)
}

// The directory of a path. Where it can't be packed, that is reported.
fn source_of(
    rt: &HostRuntime,
    settings: &Settings,
    accounts: &Accounts<'_, Global>,
    server: ServerName,
    path: &str,
) -> Result<Source, Failure> {
    let disk = String::from_str(rt.alloc(), path)?;
    match dir_of(rt, settings, accounts, path) {
        Ok((dir, attributes)) => Ok(Source {
            server,
            root: OpenDir {
                dir,
                disk,
                attributes,
            },
        }),
        Err(reason) => Err(PROGRAM.refuse_option(rt, "directory", path, &reason)),
    }
}

// The open directory of a path, or why it can't be packed.
fn dir_of(
    rt: &HostRuntime,
    settings: &Settings,
    accounts: &Accounts<'_, Global>,
    path: &str,
) -> Result<(Dir, Attributes), Reason> {
    match opened(rt, path) {
        Ok((dir, metadata)) => Ok((dir, attributes_of(settings, accounts, &metadata)?)),
        Err(error) => Err(why_not_opened(rt, path, error)),
    }
}

// Opens the directory of a path.
fn opened(rt: &HostRuntime, disk: &str) -> io::Result<(Dir, Metadata)> {
    let dir = Dir::open(disk)?;
    let metadata = dir.metadata(rt)?;
    Ok((dir, metadata))
}

// Why the directory of a path can't be opened, where the system had this error.
fn why_not_opened(rt: &HostRuntime, disk: &str, error: io::Error) -> Reason {
    match symlink_metadata(rt, disk.trim_end_matches('/')) {
        Ok(seen) => why_no_dir(&seen).unwrap_or(Reason::System(error)),
        Err(error) => why_not_seen(error),
    }
}

// Why what is seen is no directory, where it is none.
fn why_no_dir(seen: &Metadata) -> Option<Reason> {
    if seen.is_symlink() {
        return Some(Reason::Link);
    }
    (!seen.is_dir()).then_some(Reason::NotDirectory)
}

// Why nothing is seen.
fn why_not_seen(error: io::Error) -> Reason {
    if error.kind() == ErrorKind::NotFound {
        return Reason::NoDirectory;
    }
    Reason::System(error)
}

/// What the values hide, each once. Where one can't be had, that is reported.
pub(crate) fn hides_in(
    rt: &HostRuntime,
    values: &[&str],
    renames: &[Rename<'_>],
    with_hidden: bool,
    sources: &[Source],
) -> Result<Vec<Hide>, Failure> {
    let servers = servers_of(rt.alloc(), sources)?;
    let asked = HidesAsked {
        renames,
        with_hidden,
        servers: servers.as_slice(),
        sources,
    };
    hides_asked(rt, values, asked)
}

// What the values are read with: what is renamed, whether what is inside hidden directories is packed
// too, and the servers with their directories.
#[derive(Clone, Copy)]
struct HidesAsked<'a> {
    renames: &'a [Rename<'a>],
    with_hidden: bool,
    servers: &'a [ServerName],
    sources: &'a [Source],
}

// What the values hide, each once. Where one can't be had, that is reported.
fn hides_asked(
    rt: &HostRuntime,
    values: &[&str],
    asked: HidesAsked<'_>,
) -> Result<Vec<Hide>, Failure> {
    let mut hides = Vec::new(rt.alloc());
    for value in values {
        let hide = hide_beside(rt, value, asked, hides.as_slice())?;
        add_hide(hide, &mut hides)?;
    }
    Ok(hides)
}

// The directory that a value hides beside others. Where it can't be had, that is reported.
fn hide_beside(
    rt: &HostRuntime,
    value: &str,
    asked: HidesAsked<'_>,
    hides: &[Hide],
) -> Result<Hide, Failure> {
    let hide = hide_of(rt, value, asked.renames, asked.servers)?;
    let names = names_in(rt.alloc(), value)?;
    match why_not_hidden(rt, &hide, names.as_slice(), asked, hides) {
        Some(reason) => Err(PROGRAM.refuse_option(rt, "--hide", value, &reason)),
        None => Ok(hide),
    }
}

// Why a directory of these names on the disk can't be hidden beside others, where it can't.
fn why_not_hidden(
    rt: &HostRuntime,
    hide: &Hide,
    names: &[&str],
    asked: HidesAsked<'_>,
    hides: &[Hide],
) -> Option<Reason> {
    match why_not_there(rt, &hide.server, names, asked.sources) {
        None => why_not_beside(hide, asked.with_hidden, hides),
        why_not => why_not,
    }
}

// Adds a directory that is to be hidden, unless it is there.
fn add_hide(hide: Hide, hides: &mut Vec<Hide>) -> Result<(), NoMemory> {
    if !is_hidden(hides.as_slice(), &hide.server, hide.path.as_slice()) {
        hides.push(hide)?;
    }
    Ok(())
}

// The directory that a value names, with its names renamed. Where it names none that may be hidden,
// that is reported.
fn hide_of(
    rt: &HostRuntime,
    value: &str,
    renames: &[Rename<'_>],
    servers: &[ServerName],
) -> Result<Hide, Failure> {
    let place = renamed_place(rt.alloc(), renames, value)?;
    match hide_in(rt.alloc(), place.as_str(), servers) {
        Ok(hide) => Ok(hide),
        Err(Stop::Refused(HideFault::Unfit(unfit))) => {
            Err(PROGRAM.refuse_option(rt, "--hide", value, &Reason::from(unfit)))
        }
        Err(Stop::Refused(fault)) => Err(PROGRAM.refuse_option(rt, "--hide", value, &fault)),
        Err(Stop::NoMemory) => Err(Failure::NoMemory),
    }
}

// The names of the path of a value on the disk, from the directory of its server on.
fn names_in(alloc: Global, value: &str) -> Result<Vec<&str>, NoMemory> {
    match value.split_once('/') {
        Some((_, path)) => elements(alloc, path),
        None => Ok(Vec::new(alloc)),
    }
}

// Why there is no directory of these names on the disk for a server, where there is none.
fn why_not_there(
    rt: &HostRuntime,
    server: &ServerName,
    names: &[&str],
    sources: &[Source],
) -> Option<Reason> {
    for source in sources {
        if source.server == *server {
            if let Some(reason) = why_no_path(rt, &source.root.dir, names) {
                return Some(reason);
            }
        }
    }
    None
}

// Why a directory can't be hidden beside others, where it can't.
fn why_not_beside(hide: &Hide, with_hidden: bool, hides: &[Hide]) -> Option<Reason> {
    (!with_hidden && is_nested(hide, hides)).then_some(Reason::Nested)
}

// Whether a directory is below one of others, or one of them is below it.
fn is_nested(hide: &Hide, hides: &[Hide]) -> bool {
    hides
        .iter()
        .any(|other| is_below(hide, other) || is_below(other, hide))
}

// Why no directory of these names is below a directory, where there is none. No link is followed.
fn why_no_path(rt: &HostRuntime, dir: &Dir, path: &[&str]) -> Option<Reason> {
    let (name, names) = path.split_first()?;
    let seen = match dir.look(rt, name) {
        Ok(seen) => seen,
        Err(error) => return Some(why_not_seen(error)),
    };
    if let Some(reason) = why_no_dir(&seen) {
        return Some(reason);
    }
    if names.is_empty() {
        return None;
    }
    match dir.open_dir(name) {
        Ok(below) => why_no_path(rt, &below, names),
        Err(error) => Some(Reason::System(error)),
    }
}
