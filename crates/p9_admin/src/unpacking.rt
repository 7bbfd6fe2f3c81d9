//! A server's tree, as a directory of the disk.

use crate::PROGRAM;
use p9_base::{FileFlags, Kind, Name};
use p9_pack::Accounts;
use p9_shell::Failure;
use p9_shown::AsShown;
use p9_tree::{Node, Tree};
use std::alloc::{AllocError, Global};
use std::fs::{self, DirBuilder, File, OpenOptions, Permissions};
use std::io::{self, Error, ErrorKind, Write};
use std::os::unix::fs::{DirBuilderExt, OpenOptionsExt, PermissionsExt, lchown};
use std::time::{Duration, UNIX_EPOCH};

// The modes of what is made, until all of it is written.
const FILE_MODE: u32 = 0o600;

const DIR_MODE: u32 = 0o700;

/// What was written of some trees so far. Nothing is overwritten, and no link is followed: all is made in
/// a new directory, and what is there already is refused.
#[derive(Drop)]
pub(crate) struct Unpacking<'a> {
    // The accounts by which owners are given, if they are given.
    accounts: Option<&'a Accounts<'a, Global>>,
    written: u64,
    is_whole: bool,
}

// A directory that was made, by its number.
#[derive(Drop)]
struct Made {
    number: u64,
    path: String,
}

impl<'a> Unpacking<'a> {
    /// Nothing is written yet. Owners are given by these accounts, if there are some.
    pub fn new(accounts: Option<&'a Accounts<'a, Global>>) -> Unpacking<'a> {
        Unpacking {
            accounts,
            written: 0,
            is_whole: true,
        }
    }

    /// How many files and directories were written.
    pub fn written(&self) -> u64 {
        self.written
    }

    /// Whether all that was asked for is there.
    pub fn is_whole(&self) -> bool {
        self.is_whole
    }

    /// Writes the tree of a server into a directory of its name. What can't be written is reported, and the
    /// rest is written. The error is a failure after which nothing more can be written, as a full disk.
    pub fn tree<T: Tree<Alloc = Global>>(
        &mut self,
        rt: &HostRuntime,
        local: &str,
        server: &str,
        tree: &T,
    ) -> Result<(), Failure> {
        let mut made = Vec::new(rt.alloc());
        let done = self.nodes(rt, local, server, tree, &mut made);
        let ended = self.end_dirs(rt, tree, made.as_slice());
        done?;
        ended
    }

    // Writes the nodes of a tree by rising number, each directory before what is in it.
    fn nodes<T: Tree<Alloc = Global>>(
        &mut self,
        rt: &HostRuntime,
        local: &str,
        server: &str,
        tree: &T,
        made: &mut Vec<Made>,
    ) -> Result<(), Failure> {
        let mut number = 0;
        for _ in 0..u64::MAX {
            let Some(node) = tree.first_from(number) else {
                return Ok(());
            };
            self.node(rt, local, server, node, made)?;
            number = node.number().saturating_add(1);
        }
        Ok(())
    }

    // Writes a node, or reports why not.
    fn node(
        &mut self,
        rt: &HostRuntime,
        local: &str,
        server: &str,
        node: &Node<Global>,
        made: &mut Vec<Made>,
    ) -> Result<(), Failure> {
        let (dir, name) = match node.entry() {
            Some(entry) => (dir_of(made.as_slice(), entry.parent), entry.name),
            None => match Name::new(server) {
                Some(name) => (Some(local), name),
                None => {
                    let error = Error::from(ErrorKind::InvalidFilename);
                    return self.fail(rt, server, error);
                }
            },
        };
        let Some(dir) = dir else {
            return self.fail_below(rt, server, node);
        };
        let path = format!(in rt.alloc(); "{dir}/{}", name.as_str())?;
        match write_node(rt, path.as_str(), node) {
            Ok(()) => {
                self.written = self.written.saturating_add(1);
                self.keep(rt, path, node, made)
            }
            Err(error) => self.fail(rt, path.as_str(), error),
        }
    }

    // Notes a directory that was made, and gives a file that was written what it gets at the end.
    fn keep(
        &mut self,
        rt: &HostRuntime,
        path: String,
        node: &Node<Global>,
        made: &mut Vec<Made>,
    ) -> Result<(), Failure> {
        match node.mode().kind {
            Kind::Directory => Ok(made.push(Made {
                number: node.number(),
                path,
            })?),
            Kind::File(flags) => {
                tell_flags(rt, path.as_str(), flags)?;
                self.end(rt, path.as_str(), node)
            }
        }
    }

    // Gives what was written its owner, its time and its mode.
    fn end(&mut self, rt: &HostRuntime, path: &str, node: &Node<Global>) -> Result<(), Failure> {
        self.give(rt, path, node)?;
        match set_time_and_mode(rt, path, node) {
            Ok(()) => Ok(()),
            Err(error) => self.fail(rt, path, error),
        }
    }

    // Gives the directories that were made what they get, the last one first: a directory is closed to
    // its owner only after those in it have theirs.
    fn end_dirs<T: Tree<Alloc = Global>>(
        &mut self,
        rt: &HostRuntime,
        tree: &T,
        made: &[Made],
    ) -> Result<(), Failure> {
        for dir in made.iter().rev() {
            if let Some(node) = tree.node(dir.number) {
                self.end(rt, dir.path.as_str(), node)?;
            }
        }
        Ok(())
    }

    // Gives what was written the owner and the group of its node, where owners are given.
    fn give(&mut self, rt: &HostRuntime, path: &str, node: &Node<Global>) -> Result<(), Failure> {
        let Some(accounts) = self.accounts else {
            return Ok(());
        };
        let (owner, group) = (node.uid().as_str(), node.gid().as_str());
        let uid = accounts.user_number(owner);
        let gid = accounts.group_number(group);
        if let Err(error) = lchown(rt, path, uid, gid) {
            return self.fail(rt, path, error);
        }
        if uid.is_some() && gid.is_some() {
            return Ok(());
        }
        self.is_whole = false;
        let (path, owner, group) = (AsShown(path), AsShown(owner), AsShown(group));
        Ok(eprintln!(rt; "p9_admin: {path}: this system has no owner {owner} or no group {group}")?)
    }

    // Reports what can't be written. The error is that nothing more can be.
    fn fail(&mut self, rt: &HostRuntime, path: &str, error: Error) -> Result<(), Failure> {
        self.is_whole = false;
        let kind = error.kind();
        let failure = PROGRAM.failed(rt, path, error);
        match kind {
            ErrorKind::OutOfMemory | ErrorKind::StorageFull | ErrorKind::QuotaExceeded => {
                Err(failure)
            }
            _ => Ok(()),
        }
    }

    // Reports a node whose directory is not there.
    fn fail_below(
        &mut self,
        rt: &HostRuntime,
        server: &str,
        node: &Node<Global>,
    ) -> Result<(), Failure> {
        self.is_whole = false;
        let (server, name) = (AsShown(server), AsShown(node.name()));
        Ok(eprintln!(rt;
            "p9_admin: {server}: {name} is not written, since its directory is not there"
        )?)
    }
}

// The path of the directory of a number, where it was made.
fn dir_of(made: &[Made], number: u64) -> Option<&str> {
    match made.binary_search_by_key(&number, |dir| dir.number) {
        Ok(position) => Some(made.get(position)?.path.as_str()),
        Err(_) => None,
    }
}

// Makes a directory, or a file with all its bytes. A file of which a part was written is removed.
fn write_node(rt: &HostRuntime, path: &str, node: &Node<Global>) -> io::Result<()> {
    if node.is_dir() {
        return DirBuilder::new().mode(DIR_MODE).create(rt, path);
    }
    let mut options = OpenOptions::new();
    options.write(true).create_new(true).mode(FILE_MODE);
    let mut file = options.open(rt, path)?;
    match write_all(&mut file, node.bytes()) {
        Ok(()) => Ok(()),
        Err(error) => {
            let _ = fs::remove_file(rt, path);
            Err(error)
        }
    }
}

// Writes all bytes of a file, and brings them to the disk.
fn write_all(file: &mut File, bytes: &[u8]) -> io::Result<()> {
    file.write_all(bytes)?;
    file.sync_all()
}

// Gives what was written the time of its last change, and its permissions.
fn set_time_and_mode(rt: &HostRuntime, path: &str, node: &Node<Global>) -> io::Result<()> {
    let seconds = Duration::from_secs(u64::from(node.mtime()));
    let opened = File::open(rt, path)?;
    if let Some(time) = UNIX_EPOCH.checked_add(seconds) {
        opened.set_modified(time)?;
    }
    opened.set_permissions(Permissions::from_mode(node.mode().permissions.bits()))
}

// Tells which flags of a file the disk doesn't keep.
fn tell_flags(rt: &HostRuntime, path: &str, flags: FileFlags) -> Result<(), Failure> {
    let told = [
        (flags.append_only, "append-only"),
        (flags.exclusive, "exclusive use"),
        (flags.temporary, "temporary"),
    ];
    let path = AsShown(path);
    for (is_set, what) in &told {
        if *is_set {
            eprintln!(rt; "note: {path}: not kept: {what}")?;
        }
    }
    Ok(())
}
