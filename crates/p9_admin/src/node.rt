//! What is packed of one directory or file.

ghost use Rattle.std.specs.Prelude.{◌≡◌, ◌⊎◌, IfNone, None, Some};
ghost use Rattle.std.specs.Fs.{IsDir, IsFile, IsSymlink};

use crate::attributes::{Attributes, attributes_of};
use crate::hide::{Hide, is_entered, is_hidden};
use crate::output::Output;
use crate::reason::Reason;
use crate::rename::{Rename, is_taken, with_new_names};
use crate::settings::{Settings, add_user};
use p9_base::FileFlags;
use p9_files::{Dir, Listing};
use p9_pack::Accounts;
use p9_shell::Failure;
use p9_shown::AsShown;
use p9_tree::FILE_MAX;
use p9_world::{
    DirLine, FileLine, PlainName, PlainUser, ServerName, fit_size, write_dir, write_file,
    write_server,
};
use std::alloc::Global;
use std::fs::{File, FileType, Metadata};
use std::io::{self, Read};

/// What is packed so far.
pub(crate) struct Packing<'s> {
    pub output: Output,
    pub settings: &'s Settings,
    /// The files of accounts.
    pub accounts: &'s Accounts<'s, Global>,
    /// What is renamed.
    pub renames: &'s [Rename<'s>],
    /// What is to be hidden, each once.
    pub hides: Vec<Hide>,
    /// Whether what is inside a hidden directory is packed too.
    pub with_hidden: bool,
    /// The groups that occur, each once.
    pub groups: Vec<PlainUser>,
}

/// A directory of which some entries are still to be packed.
#[derive(Drop)]
pub(crate) struct Level {
    pub dir: Dir,
    /// Its path on the disk, as it is shown.
    pub disk: String,
    /// The names of its entries in the world and on the disk, the next one last.
    pub names: Vec<(String, String)>,
    /// The name in the world of the entry before these.
    pub before: Option<String>,
}

impl Level {
    /// Whether a name of the disk was renamed to one that the entry before or after it gets, too.
    pub fn is_taken(&self, name: &str, disk: &str) -> bool {
        let before = match &self.before {
            Some(before) => Some(before.as_str()),
            None => None,
        };
        let after = match self.names.last() {
            Some((after, _)) => Some(after.as_str()),
            None => None,
        };
        is_taken(name, disk, before, after)
    }
}

/// A name of an open directory.
#[derive(Clone, Copy)]
pub(crate) struct Entry<'a> {
    pub dir: &'a Dir,
    pub name: &'a str,
    /// Its path on the disk, as it is shown.
    pub disk: &'a str,
}

/// An open directory of the disk.
#[derive(Drop)]
pub(crate) struct OpenDir {
    pub dir: Dir,
    /// Its path on the disk, as it is shown.
    pub disk: String,
    pub attributes: Attributes,
}

// A file of the disk that was read.
#[derive(Drop)]
struct ReadFile {
    bytes: Vec<u8>,
    attributes: Attributes,
}

impl Packing<'_> {
    /// Packs the directory or file of an entry, which has these names from the root of its server on.
    /// Of a directory it returns the entries, unless it is left out, or they are not to be packed.
    pub fn entry(
        &mut self,
        rt: &HostRuntime,
        server: &ServerName,
        names: &[PlainName],
        entry: Entry<'_>,
    ) -> Result<Option<Level>, Failure> {
        match entry.dir.look(rt, entry.name) {
            Ok(seen) => self.seen(rt, server, names, entry, &seen),
            Err(error) => self.none(rt, entry.disk, Reason::System(error)),
        }
    }

    // Packs what was seen of an entry.
    fn seen(
        &mut self,
        rt: &HostRuntime,
        server: &ServerName,
        names: &[PlainName],
        entry: Entry<'_>,
        seen: &Metadata,
    ) -> Result<Option<Level>, Failure> {
        if let Some(reason) = why_not(seen.file_type()) {
            return self.none(rt, entry.disk, reason);
        }
        if !seen.is_dir() {
            self.file(rt, names, entry)?;
            return Ok(None);
        }
        if is_entered(self.hides.as_slice(), self.with_hidden, server, names) {
            return self.open_dir(rt, server, names, entry);
        }
        match attributes_of(self.settings, self.accounts, seen) {
            Ok(attributes) => self.dir_lines(rt, server, names, attributes, entry.disk)?,
            Err(reason) => self.leave_out(rt, entry.disk, reason)?,
        }
        Ok(None)
    }

    // Packs a directory whose entries are to be packed.
    fn open_dir(
        &mut self,
        rt: &HostRuntime,
        server: &ServerName,
        names: &[PlainName],
        entry: Entry<'_>,
    ) -> Result<Option<Level>, Failure> {
        match opened_dir(rt, self.settings, self.accounts, entry) {
            Ok(open) => self.dir(rt, server, names, open),
            Err(reason) => self.none(rt, entry.disk, reason),
        }
    }

    /// Packs an open directory, and returns its entries, unless it is left out.
    pub fn dir(
        &mut self,
        rt: &HostRuntime,
        server: &ServerName,
        names: &[PlainName],
        open: OpenDir,
    ) -> Result<Option<Level>, Failure> {
        match open.dir.names(rt) {
            Ok(found) => self.level(rt, server, names, open, found),
            Err(error) => self.none(rt, open.disk.as_str(), Reason::System(error)),
        }
    }

    // Packs an open directory of these names.
    fn level(
        &mut self,
        rt: &HostRuntime,
        server: &ServerName,
        names: &[PlainName],
        open: OpenDir,
        found: Listing,
    ) -> Result<Option<Level>, Failure> {
        let OpenDir {
            dir,
            disk,
            attributes,
        } = open;
        self.dir_lines(rt, server, names, attributes, disk.as_str())?;
        self.output
            .leave_out_names(rt, disk.as_str(), found.others)?;
        let names = with_new_names(rt.alloc(), self.renames, found.names)?;
        Ok(Some(Level {
            dir,
            disk,
            names,
            before: None,
        }))
    }

    // Packs a directory without its entries. The line of the server is before that of its root.
    fn dir_lines(
        &mut self,
        rt: &HostRuntime,
        server: &ServerName,
        names: &[PlainName],
        attributes: Attributes,
        disk: &str,
    ) -> Result<(), Failure> {
        if names.is_empty() {
            let added = write_server(rt.alloc(), *server, &mut self.output.text);
            self.output.count(rt, added)?;
        }
        let line = DirLine {
            path: names,
            permissions: attributes.permissions,
            uid: attributes.uid,
            gid: attributes.gid,
        };
        let added = write_dir(rt.alloc(), &line, &mut self.output.text);
        self.output.count(rt, added)?;
        self.note_hidden(rt, server, names, attributes.uid, disk)?;
        self.note(rt, attributes, disk)
    }

    // Notes that a directory is there, where it is to be hidden, and reports an owner who may attach.
    fn note_hidden(
        &mut self,
        rt: &HostRuntime,
        server: &ServerName,
        names: &[PlainName],
        owner: PlainUser,
        disk: &str,
    ) -> Result<(), Failure> {
        note_dir(self.hides.as_mut_slice(), server, names);
        if is_hidden(self.hides.as_slice(), server, names) && self.settings.users.contains(&owner) {
            let (disk, owner) = (AsShown(disk), AsShown(owner.as_str()));
            eprintln!(rt;
                "note: {disk} is not out of reach: its owner {owner} is a --user; --owner NAME gives all another owner"
            )?;
        }
        Ok(())
    }

    // Packs a file.
    fn file(
        &mut self,
        rt: &HostRuntime,
        names: &[PlainName],
        entry: Entry<'_>,
    ) -> Result<(), Failure> {
        match read_file(rt, self.settings, self.accounts, entry) {
            Ok(file) => self.file_line(rt, names, &file, entry.disk),
            Err(reason) => self.leave_out(rt, entry.disk, reason),
        }
    }

    // Packs a file that was read.
    fn file_line(
        &mut self,
        rt: &HostRuntime,
        names: &[PlainName],
        file: &ReadFile,
        disk: &str,
    ) -> Result<(), Failure> {
        let line = FileLine {
            path: names,
            flags: FileFlags {
                append_only: false,
                exclusive: false,
                temporary: false,
            },
            permissions: file.attributes.permissions,
            uid: file.attributes.uid,
            gid: file.attributes.gid,
            bytes: file.bytes.as_slice(),
        };
        let added = write_file(rt.alloc(), &line, &mut self.output.text);
        self.output.count(rt, added)?;
        self.note(rt, file.attributes, disk)
    }

    // Notes a group that occurs, and reports the bits of a mode that are lost.
    fn note(
        &mut self,
        rt: &HostRuntime,
        attributes: Attributes,
        disk: &str,
    ) -> Result<(), Failure> {
        add_user(attributes.gid, &mut self.groups)?;
        if let Some(mode) = attributes.lost {
            let (disk, kept) = (AsShown(disk), attributes.permissions.bits());
            eprintln!(rt; "note: {disk}: {mode:o} became {kept:o}")?;
        }
        Ok(())
    }

    /// Leaves out an entry, of which nothing is to be packed. Where the reason is a failed allocation, it
    /// fails.
    pub fn none(
        &mut self,
        rt: &HostRuntime,
        disk: &str,
        reason: Reason,
    ) -> Result<Option<Level>, Failure> {
        self.leave_out(rt, disk, reason)?;
        Ok(None)
    }

    // Leaves out what can't be packed, unless an allocation failed.
    fn leave_out(&mut self, rt: &HostRuntime, disk: &str, reason: Reason) -> Result<(), Failure> {
        if reason.is_no_memory() {
            return Err(Failure::NoMemory);
        }
        self.output.leave_out(rt, disk, reason)
    }
}

// Opens the directory of an entry.
fn opened_dir(
    rt: &HostRuntime,
    settings: &Settings,
    accounts: &Accounts<'_, Global>,
    entry: Entry<'_>,
) -> Result<OpenDir, Reason> {
    let dir = entry.dir.open_dir(entry.name)?;
    let attributes = attributes_of(settings, accounts, &dir.metadata(rt)?)?;
    Ok(OpenDir {
        dir,
        disk: String::from_str(rt.alloc(), entry.disk).map_err(io::Error::from)?,
        attributes,
    })
}

// Reads the file of an entry.
fn read_file(
    rt: &HostRuntime,
    settings: &Settings,
    accounts: &Accounts<'_, Global>,
    entry: Entry<'_>,
) -> Result<ReadFile, Reason> {
    let file = entry.dir.open_file(rt, entry.name)?;
    let metadata = file.metadata()?;
    let attributes = attributes_of(settings, accounts, &metadata)?;
    fit_size(metadata.len())?;
    let bytes = contents(rt, file, metadata.len())?;
    fit_size(bytes.len() as u64)?;
    Ok(ReadFile { bytes, attributes })
}

// The bytes of an open file, of which there are `len`. Where it grew, at most one more than
// [`FILE_MAX`] is read.
fn contents(rt: &HostRuntime, file: File, len: u64) -> io::Result<Vec<u8>> {
    let most = FILE_MAX as u64 + 1;
    let mut bytes = Vec::with_capacity(rt.alloc(), len.min(most) as usize)?;
    file.take(most).read_to_end(&mut bytes)?;
    Ok(bytes)
}

// Why a world can't have what is of this type.
fn why_not(kind: FileType) -> Option<Reason>
    ensures link { IsSymlink kind → result ≡ Some Reason.Link }
    ensures dir { IfNone result ((¬ IsSymlink kind) × (IsDir kind ⊎ IsFile kind)) }
    ensures fit { (¬ IsSymlink kind) → IsDir kind → result ≡ None }
    ensures file { (¬ IsSymlink kind) → IsFile kind → result ≡ None }
{
    if kind.is_symlink() {
        return Some(Reason::Link);
    }
    if kind.is_dir() || kind.is_file() {
        return None;
    }
    Some(Reason::Device)
}

// Notes which of what is to be hidden is this directory.
fn note_dir(hides: &mut [Hide], server: &ServerName, names: &[PlainName]) {
    for hide in hides {
        if hide.server == *server && hide.path.as_slice() == names {
            hide.is_there = true;
        }
    }
}
