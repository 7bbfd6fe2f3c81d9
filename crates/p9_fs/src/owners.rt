//! The owners of files that are copied from a server.

use crate::failure::{Failure, finish_local, report_about, report_local};
use crate::names::names_of;
use crate::remote::PERMISSIONS;
use p9_base::{DMAPPEND, DMEXCL, DMTMP, FileFlags, NoMemory, Permissions};
use p9_client::Entry;
use p9_files::{NewFile, OUTPUT_MODE};
use p9_world::{
    DirLine, FileLine, PlainName, PlainUser, ServerName, Unfit, fit_size, write_dir, write_file,
    write_server,
};
use std::alloc::Global;
use std::fs;
use std::fs::File;
use std::os::unix::fs::lchown;

/// The owners of what is copied: where they are given to files of the system, its users and groups,
/// and the lines of a world, where these are written to a file.
#[derive(Drop)]
pub struct Owners {
    accounts: Option<Accounts>,
    lines: Option<Lines>,
}

// The texts of the files of accounts.
#[derive(Drop)]
struct Accounts {
    users: String,
    groups: String,
}

// The lines of a world so far, the file that they are written to, and the path of the tree's root on
// the server.
#[derive(Drop)]
struct Lines {
    file: String,
    root: String,
    text: Vec<u8>,
}

impl Owners {
    /// Nothing was copied of the tree of a path. Owners are given where that is asked for and the user
    /// is root, and lines are written to the file that is named.
    pub fn begin(
        rt: &HostRuntime,
        path: &str,
        file: Option<&str>,
        keeps: bool,
    ) -> Result<Owners, Failure> {
        let accounts = if keeps && libc::geteuid() == 0 {
            Some(read_accounts(rt)?)
        } else {
            None
        };
        let lines = match file {
            Some(file) => Some(first_lines(rt, path, file)?),
            None => None,
        };
        Ok(Owners { accounts, lines })
    }

    /// Whether lines of a world are noted.
    pub fn are_noted(&self) -> bool {
        self.lines.is_some()
    }

    /// Notes a directory. One that a world can't have is reported.
    pub fn note_dir(
        &mut self,
        rt: &HostRuntime,
        path: &str,
        entry: &Entry<Global>,
    ) -> Result<(), Failure> {
        let Some(lines) = &mut self.lines else {
            return Ok(());
        };
        let names = plain_names(rt, path, lines.root.as_str())?;
        let (uid, gid) = plain_owners(rt, path, entry)?;
        let line = DirLine {
            path: names.as_slice(),
            permissions: permissions_of(entry.mode),
            uid,
            gid,
        };
        Ok(write_dir(rt.alloc(), &line, &mut lines.text)?)
    }

    /// Notes a file with its bytes. One that a world can't have is reported.
    pub fn note_file(
        &mut self,
        rt: &HostRuntime,
        path: &str,
        entry: &Entry<Global>,
        bytes: &[u8],
    ) -> Result<(), Failure> {
        let Some(lines) = &mut self.lines else {
            return Ok(());
        };
        let names = plain_names(rt, path, lines.root.as_str())?;
        lines.add_file(rt, path, names.as_slice(), entry, bytes)
    }

    /// Gives a file of the system the owner and the group of one of the server, where owners are given
    /// and this system has them. One that it doesn't have is reported, unless the lines of a world have
    /// it. A device or a link keeps the owner and the group that it has.
    pub fn give(
        &self,
        rt: &HostRuntime,
        local: &str,
        entry: &Entry<Global>,
    ) -> Result<(), Failure> {
        let Some(accounts) = &self.accounts else {
            return Ok(());
        };
        let metadata = finish_local(rt, local, fs::symlink_metadata(rt, local))?;
        if !metadata.is_file() && !metadata.is_dir() {
            return Ok(());
        }
        let uid = number_of(accounts.users.as_str(), entry.uid.as_str());
        let gid = number_of(accounts.groups.as_str(), entry.gid.as_str());
        self.give_numbers(rt, local, uid, gid)
    }

    // Gives a file of the system the owner and the group of these numbers. One that is missing is
    // reported, unless the lines of a world have it.
    fn give_numbers(
        &self,
        rt: &HostRuntime,
        local: &str,
        uid: Option<u32>,
        gid: Option<u32>,
    ) -> Result<(), Failure> {
        let given = finish_local(rt, local, lchown(rt, local, uid, gid));
        if (uid.is_none() || gid.is_none()) && !self.are_noted() {
            let what = "this system has no such owner or group";
            return Err(report_about(rt, local, &what, Failure::Local));
        }
        given
    }

    /// Writes the lines, where they are noted.
    pub fn end(&self, rt: &HostRuntime) -> Result<(), Failure> {
        let Some(lines) = &self.lines else {
            return Ok(());
        };
        let file = lines.file.as_str();
        match NewFile::create(rt, rt.alloc(), file) {
            Ok(new) => write_lines(rt, file, lines.text.as_slice(), new),
            Err(error) => Err(report_local(rt, file, &error)),
        }
    }
}

// Writes lines to a new file, which then takes its place.
fn write_lines(
    rt: &HostRuntime,
    path: &str,
    text: &[u8],
    file: NewFile<File, Global>,
) -> Result<(), Failure> {
    let mut file = file;
    if let Err(error) = file.write_all(text) {
        finish_local(rt, path, file.discard(rt))?;
        return Err(report_local(rt, path, &error));
    }
    finish_local(rt, path, file.finish(rt, OUTPUT_MODE))
}

// The users and groups of this system.
fn read_accounts(rt: &HostRuntime) -> Result<Accounts, Failure> {
    let users = fs::read_to_string(rt, "/etc/passwd");
    let groups = fs::read_to_string(rt, "/etc/group");
    Ok(Accounts {
        users: finish_local(rt, "/etc/passwd", users)?,
        groups: finish_local(rt, "/etc/group", groups)?,
    })
}

// The number of a name in a file of accounts, whose lines are NAME:PASSWORD:NUMBER.
fn number_of(accounts: &str, name: &str) -> Option<u32> {
    for line in accounts.split('\n') {
        let mut fields = line.split(':');
        if fields.next() == Some(name) {
            return u32::from_str_radix(fields.nth(1)?, 10).ok();
        }
    }
    None
}

// The first lines of the world of a tree: its server is named as its directory.
fn first_lines(rt: &HostRuntime, path: &str, file: &str) -> Result<Lines, Failure> {
    let server = server_of(rt, path)?;
    let mut lines = Lines {
        file: String::from_str(rt.alloc(), file)?,
        root: String::from_str(rt.alloc(), path)?,
        text: Vec::new(rt.alloc()),
    };
    match lines.begin(rt.alloc(), server) {
        Ok(()) => Ok(lines),
        Err(error) => Err(Failure::from(error)),
    }
}

// The server of the tree of a path. One that a world can't have is reported.
fn server_of(rt: &HostRuntime, path: &str) -> Result<ServerName, Failure> {
    let names = names_of(rt.alloc(), path)?;
    match ServerName::new(names.as_slice().last().copied().unwrap_or("main")) {
        Ok(server) => Ok(server),
        Err(unfit) => Err(unfit_of(rt, path, unfit)),
    }
}

impl Lines {
    // Begins a world with its server.
    fn begin(&mut self, alloc: Global, server: ServerName) -> Result<(), NoMemory> {
        self.text.extend_from_slice(b"%% world\n")?;
        write_server(alloc, server, &mut self.text)
    }

    // Adds the file of these names with its bytes. One that a world can't have is reported.
    fn add_file(
        &mut self,
        rt: &HostRuntime,
        path: &str,
        names: &[PlainName],
        entry: &Entry<Global>,
        bytes: &[u8],
    ) -> Result<(), Failure> {
        let (uid, gid) = plain_owners(rt, path, entry)?;
        if let Err(unfit) = fit_size(bytes.len() as u64) {
            return Err(unfit_of(rt, path, unfit));
        }
        let line = FileLine {
            path: names,
            flags: flags_of(entry.mode),
            permissions: permissions_of(entry.mode),
            uid,
            gid,
            bytes,
        };
        Ok(write_file(rt.alloc(), &line, &mut self.text)?)
    }
}

// The names of a path below the root, as a world has them.
fn plain_names(rt: &HostRuntime, path: &str, root: &str) -> Result<Vec<PlainName>, Failure> {
    let below = path.strip_prefix(root).unwrap_or(path);
    let names = names_of(rt.alloc(), below)?;
    all_plain(rt, path, names.as_slice())
}

// The names of a path, as a world has them.
fn all_plain(rt: &HostRuntime, path: &str, names: &[&str]) -> Result<Vec<PlainName>, Failure> {
    let mut plain = Vec::new(rt.alloc());
    for name in names {
        plain.push(plain_name(rt, path, name)?)?;
    }
    Ok(plain)
}

// A name of a path, as a world has it.
fn plain_name(rt: &HostRuntime, path: &str, name: &str) -> Result<PlainName, Failure> {
    match PlainName::new(name) {
        Ok(name) => Ok(name),
        Err(unfit) => Err(unfit_of(rt, path, unfit)),
    }
}

// The owner and the group of a file, as a world has them.
fn plain_owners(
    rt: &HostRuntime,
    path: &str,
    entry: &Entry<Global>,
) -> Result<(PlainUser, PlainUser), Failure> {
    match (
        PlainUser::new(entry.uid.as_str()),
        PlainUser::new(entry.gid.as_str()),
    ) {
        (Ok(uid), Ok(gid)) => Ok((uid, gid)),
        (Err(unfit), _) | (_, Err(unfit)) => Err(unfit_of(rt, path, unfit)),
    }
}

// The flags of a file of this mode.
fn flags_of(mode: u32) -> FileFlags {
    FileFlags {
        append_only: mode & DMAPPEND != 0,
        exclusive: mode & DMEXCL != 0,
        temporary: mode & DMTMP != 0,
    }
}

// The permissions of a mode.
fn permissions_of(mode: u32) -> Permissions {
    Permissions::from_bits(mode & PERMISSIONS)
}

// Reports that the lines of a world have no file of a path.
fn unfit_of(rt: &HostRuntime, path: &str, unfit: Unfit) -> Failure {
    match format!(in rt.alloc(); "not among the owners: {unfit}") {
        Ok(text) => report_about(rt, path, &text.as_str(), Failure::Local),
        Err(_) => Failure::NoMemory,
    }
}
