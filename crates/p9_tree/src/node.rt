//! A file or directory of a server.

ghost use Rattle.std.specs.Prelude.{◌≡◌, ◌≢◌, ◌+◌, ◌≤◌, ◌&&◌, IsTrue, IfOk, IsSome, OnOk, OnErr};
ghost use Rattle.std.specs.Prelude.{codes, length, unwrap_or};
ghost use Rattle.std.specs.Option.{ForSome, option_map};
ghost use Rattle.p9_base.specs.Name.{is_name, name_max};
ghost use Rattle.p9_base.specs.Text.{is_text};
ghost use Rattle.p9_tree.specs.Bytes.{cut_to, file_max, overwritten, put_front, read_from};
ghost use Rattle.p9_tree.specs.From.{is_from};
ghost use Rattle.p9_tree.specs.Change.{changed, with_length, with_mtime};
ghost use Rattle.p9_tree.specs.New.{new_node};
ghost use Rattle.p9_tree.specs.Node.{IsTellable, is_above, is_child, is_dir, is_in, marked};
ghost use Rattle.p9_tree.specs.Node.{touched, with_bytes, with_owner};
ghost use Rattle.p9_tree.specs.Saved.{saved_node, with_fields};
ghost use Rattle.p9_tree.specs.Server.{root_mode, root_node};

use crate::bytes::Bytes;
use crate::change::Change;
use crate::kept::{KeptEntry, KeptName, kept_entry, kept_name};
use crate::new::New;
use crate::saved::Saved;
use p9_base::{Kind, Mode, Name, NoMemory, Permissions, Rights, User, valid_name};
use std::alloc::Allocator;
use std::marker::Model;

/// A file or directory of a server, as stat(5). Contracts see its fields as one flat record.
#[derive(Drop)]
pub struct Node<A: Allocator> {
    pub(crate) number: u64,
    pub(crate) entry: Option<KeptEntry<A>>,
    pub(crate) mode: Mode,
    pub(crate) uid: User,
    pub(crate) gid: User,
    pub(crate) muid: User,
    pub(crate) version: u32,
    pub(crate) atime: u32,
    pub(crate) mtime: u32,
    pub(crate) bytes: Bytes<A>,
}

/// Where a node is: in which directory, and under which name. The root is nowhere.
///
/// Entries are in the order of their directories, and in a directory in that of their names.
#[derive(Clone, Copy, PartialEq, Eq, PartialOrd, Ord)]
pub struct Entry {
    /// The number of the directory.
    pub parent: u64,
    pub name: Name,
}

impl<A: Allocator> Model for Node<A> {
    ghost use Rattle.std.specs.Prelude.{option_map};
    ghost use Rattle.std.specs.Option.{option_map_or};
    ghost use Rattle.p9_tree.specs.Node.{Node as NodeOf, root_name};

    ghost Value = { NodeOf };

    ghost view = { λ n. record {
      number = n.number;
      parent = option_map (λ e. e.parent) n.entry;
      name = option_map_or (λ e. e.name) n.entry root_name;
      mode = n.mode;
      uid = n.uid;
      gid = n.gid;
      muid = n.muid;
      version = n.version;
      atime = n.atime;
      mtime = n.mtime;
      bytes = n.bytes;
    } };
}

impl<A: Allocator> Node<A> {
    /// Its number at its server. The root's is 0.
    pub fn number(&self) -> u64
        ensures { result ≡ self.now.number }
    {
        self.number
    }

    /// The number of the directory that it is in. The root has none.
    pub fn parent(&self) -> Option<u64>
        ensures { result ≡ self.now.parent }
    {
        self.entry.as_ref().map(|e| e.parent)
    }

    /// The directory that it is in, and its name there. The root has none.
    pub fn entry(&self) -> Option<Entry>
        ensures { result ≡ option_map (λ parent. record { parent = parent; name = self.now.name })
            self.now.parent }
    {
        self.entry.as_ref().map(|e| e.entry())
    }

    /// Its name in its directory. The root's is `/`.
    pub fn name(&self) -> &str
        ensures name { result.now ≡ self.now.name }
        ensures text { IsTrue (is_text self.now.name) }
        ensures short { length self.now.name ≤ name_max }
    {
        match &self.entry {
            Some(entry) => entry.name.as_str(),
            None => "/",
        }
    }

    /// Its kind and permissions.
    pub fn mode(&self) -> Mode
        ensures { result ≡ self.now.mode }
    {
        self.mode
    }

    /// Its owner.
    pub fn uid(&self) -> &User
        ensures { result.now ≡ self.now.uid }
    {
        &self.uid
    }

    /// Its group.
    pub fn gid(&self) -> &User
        ensures { result.now ≡ self.now.gid }
    {
        &self.gid
    }

    /// The user who changed it last.
    pub fn muid(&self) -> &User
        ensures { result.now ≡ self.now.muid }
    {
        &self.muid
    }

    /// How often it was marked as changed, modulo 2^32: by each change of its bytes or its entries.
    pub fn version(&self) -> u32
        ensures { result ≡ self.now.version }
    {
        self.version
    }

    /// When it was last read or changed, in seconds since 1970, modulo 2^32.
    pub fn atime(&self) -> u32
        ensures { result ≡ self.now.atime }
    {
        self.atime
    }

    /// When it was last changed, in seconds since 1970, modulo 2^32.
    pub fn mtime(&self) -> u32
        ensures { result ≡ self.now.mtime }
    {
        self.mtime
    }

    /// A file's bytes. A directory has none.
    pub fn bytes(&self) -> &[u8]
        ensures { result.now ≡ self.now.bytes }
    {
        self.bytes.as_slice()
    }

    /// Whether it is a directory.
    pub fn is_dir(&self) -> bool
        ensures { result ≡ is_dir self.now }
    {
        self.mode.is_dir()
    }

    /// Whether it is in the directory of this number.
    pub fn is_in(&self, dir: u64) -> bool
        ensures { result ≡ is_in dir self.now }
    {
        self.entry.as_ref().is_some_and(|e| e.parent == dir)
    }

    /// Whether it is in the directory of this number under the name.
    pub fn is_child(&self, dir: u64, name: &Name) -> bool
        ensures { result ≡ is_child dir name.now self.now }
    {
        self.entry
            .as_ref()
            .is_some_and(|e| e.parent == dir && e.name.as_str() == name.as_str())
    }

    /// Whether its number is greater than the floor, if there is one.
    pub fn is_above(&self, floor: Option<u64>) -> bool
        ensures { result ≡ is_above floor self.now }
    {
        floor.is_none_or(|k| k < self.number)
    }

    /// Whether its number is at least this one.
    pub fn is_from(&self, number: u64) -> bool
        ensures { result ≡ is_from number self.now }
    {
        number <= self.number
    }

    /// All its fields, as they are kept outside a tree.
    pub fn saved(&self) -> Saved<'_>
        ensures { saved_node result ≡ self.now }
    {
        Saved {
            number: self.number,
            entry: self.entry(),
            mode: self.mode,
            uid: self.uid,
            gid: self.gid,
            muid: self.muid,
            version: self.version,
            atime: self.atime,
            mtime: self.mtime,
            bytes: self.bytes(),
        }
    }
}

/// What a tree does to its nodes, whichever way it keeps them. Outside a tree a node is only read.
impl<A: Allocator> Node<A> {
    /// The root of a new server, of mode 755, whose owner, group and last changer are `sys`. Its
    /// version and times are 0. This takes no memory.
    pub fn root(alloc: A) -> Node<A>
        ensures { result ≡ root_node }
    {
        Node {
            number: 0,
            entry: None,
            mode: root_mode(),
            uid: sys(),
            gid: sys(),
            muid: sys(),
            version: 0,
            atime: 0,
            mtime: 0,
            bytes: Bytes::new(alloc),
        }
    }

    /// A new node of this number, in the directory. Its version is 0. The only error is a failed
    /// allocation.
    pub fn new(alloc: A, number: u64, dir: u64, new: &New<'_>) -> Result<Node<A>, NoMemory>
    where
        A: Copy,
        ensures node { IfOk result (λ node. node ≡ new_node number dir new.now) }
        ensures name { IsTrue (is_name new.now.name) }
        ensures tellable { IfOk result (λ node. IsTellable node) }
    {
        prove!(valid_name(new.name.as_str()));
        let node = Node {
            number,
            entry: Some(KeptEntry {
                parent: dir,
                name: KeptName::copy_of(alloc, &new.name)?,
            }),
            mode: new.mode,
            uid: new.uid,
            gid: new.gid,
            muid: new.muid,
            version: 0,
            atime: new.atime,
            mtime: new.mtime,
            bytes: Bytes::copy_of(alloc, new.bytes)?,
        };
        node.tellable();
        Ok(node)
    }

    /// The node that is saved. The only error is a failed allocation.
    pub fn restored(alloc: A, saved: &Saved<'_>) -> Result<Node<A>, NoMemory>
    where
        A: Copy,
        ensures node { IfOk result (λ node. node ≡ saved_node saved.now) }
        ensures name { ForSome saved.now.entry (λ entry. IsTrue (is_name entry.name)) }
        ensures tellable { IfOk result (λ node. IsTellable node) }
    {
        prove_name_valid(&saved.entry);
        let restored = Node {
            number: saved.number,
            entry: kept_entry(alloc, &saved.entry)?,
            mode: saved.mode,
            uid: saved.uid,
            gid: saved.gid,
            muid: saved.muid,
            version: saved.version,
            atime: saved.atime,
            mtime: saved.mtime,
            bytes: Bytes::copy_of(alloc, saved.bytes)?,
        };
        restored.tellable();
        Ok(restored)
    }

    /// Gives it the fields that are saved, but for its place, its kind and its bytes.
    pub fn set_fields(&mut self, saved: &Saved<'_>)
        ensures node { self.new ≡ with_fields (saved_node saved.entry.now) self.old }
        ensures tellable { IsTellable self.new }
    {
        self.mode.permissions = saved.mode.permissions;
        self.uid = saved.uid;
        self.gid = saved.gid;
        self.muid = saved.muid;
        self.version = saved.version;
        self.atime = saved.atime;
        self.mtime = saved.mtime;
        self.tellable();
    }

    /// Marks it, as changed by the user now: see [`Tree`](crate::Tree).
    pub fn mark(&mut self, user: User, clock: u32)
        ensures node { self.new ≡ marked user clock self.old }
        ensures tellable { IsTellable self.new }
    {
        self.muid = user;
        self.version = self.version.wrapping_add(1);
        self.atime = clock;
        self.mtime = clock;
        self.tellable();
    }

    /// Notes that the file was read now.
    pub fn touch(&mut self, clock: u32)
        ensures node { self.new ≡ touched clock self.old }
        ensures tellable { IsTellable self.new }
    {
        self.atime = clock;
        self.tellable();
    }

    /// Makes it a directory of these permissions, owner and group, changed last by the owner.
    pub fn set_owner(&mut self, permissions: Permissions, uid: User, gid: User)
        ensures node { self.new ≡ with_owner permissions uid gid self.old }
        ensures tellable { IsTellable self.new }
    {
        self.mode = Mode {
            kind: Kind::Directory,
            permissions,
        };
        self.uid = uid;
        self.gid = gid;
        self.muid = uid;
        self.tellable();
    }

    /// Writes into the file's bytes at the offset, and fills a gap before it with zeros. Where
    /// an allocation fails, the node is as before.
    pub fn write(&mut self, offset: u64, bytes: &[u8]) -> Result<(), NoMemory>
        requires { offset + length bytes.now ≤ file_max }
        ensures ok { OnOk result (self.new ≡ with_bytes (overwritten offset bytes.now) self.old) }
        ensures err { OnErr result (self.new ≡ self.old) }
    {
        self.bytes.write(offset, bytes)
    }

    /// Keeps the first `size` of the file's bytes, or all where they are fewer.
    pub fn cut(&mut self, size: u64)
        ensures { self.new ≡ with_bytes (cut_to size) self.old }
    {
        self.bytes.cut(size);
    }

    /// Copies the file's bytes from the offset on, as many as are there and have room, over the
    /// front of the buffer, and returns how many they are. The rest of the buffer is unchanged.
    pub fn read_into(&self, offset: u64, buffer: &mut [u8]) -> usize
        ensures count { result ≡ length (read_from offset (length buffer.old) self.now.bytes) }
        ensures filled { buffer.new
            ≡ put_front (read_from offset (length buffer.old) self.now.bytes) buffer.old }
    {
        self.bytes.read_into(offset, buffer)
    }

    /// Makes all of the change. Where an allocation fails, the node is as before.
    pub fn change(&mut self, change: &Change) -> Result<(), NoMemory>
    where
        A: Copy,
        requires named { ForSome change.now.name (λ name. IsSome self.old.parent) }
        requires small { ForSome change.now.length (λ size. size ≤ file_max) }
        ensures ok { OnOk result (self.new ≡ changed change.entry.now self.old) }
        ensures name { OnOk result (ForSome change.entry.now.name (λ name. IsTrue (is_name name))) }
        ensures tellable { OnOk result (IsTellable self.new) }
        ensures err { OnErr result (self.new ≡ self.old) }
    {
        let name = kept_name(self.bytes.allocator(), &change.name)?;
        self.set_length(change)?;
        self.set_mtime(change);
        self.mode = change.mode.unwrap_or(self.mode);
        self.gid = change.gid.unwrap_or(self.gid);
        self.rename(name);
        self.tellable();
        Ok(())
    }

    // What a stat says of it has room there, by the types of its fields.
    fn tellable(&self)
        ensures { IsTellable self.now }
    {
        let _ = self.uid.as_str();
        let _ = self.gid.as_str();
        let _ = self.muid.as_str();
        let _version = self.version;
        let _atime = self.atime;
        let _mtime = self.mtime;
    }

    // Cuts the file to the new length, if there is one, or adds zeros, and marks it.
    fn set_length(&mut self, change: &Change) -> Result<(), NoMemory>
        requires { ForSome change.now.length (λ size. size ≤ file_max) }
        ensures ok { OnOk result (self.new ≡ with_length change.entry.now self.old) }
        ensures err { OnErr result (self.new ≡ self.old) }
    {
        if let Some(size) = change.length {
            self.bytes.resize(size)?;
            self.mark(change.user, change.clock);
        }
        Ok(())
    }

    // Makes the new time of change, if there is one, the user's.
    fn set_mtime(&mut self, change: &Change)
        ensures { self.new ≡ with_mtime change.entry.now self.old }
    {
        if let Some(mtime) = change.mtime {
            self.mtime = mtime;
            self.muid = change.user;
        }
    }

    // Gives it the new name, if there is one.
    fn rename(&mut self, name: Option<KeptName<A>>)
        requires { ForSome name (λ name. IsSome self.old.parent) }
        ensures name { self.new ≡ record self.old { name = unwrap_or name self.old.name } }
        ensures valid { ForSome name (λ name. IsTrue (is_name name)) }
    {
        if let (Some(entry), Some(name)) = (&mut self.entry, name) {
            let _valid = name.as_str();
            entry.name = name;
        }
    }
}

// Proves that the name of an entry is a valid one, since the type of a name keeps that. It changes
// nothing.
fn prove_name_valid(entry: &Option<Entry>)
    ensures { ForSome entry.now (λ entry. IsTrue (is_name entry.name)) }
{
    if let Some(entry) = entry {
        prove!(valid_name(entry.name.as_str()));
    }
}

// The mode of a new server's root.
fn root_mode() -> Mode
    ensures { result ≡ root_mode }
{
    let read_and_search = Rights {
        read: true,
        write: false,
        execute: true,
    };
    Mode {
        kind: Kind::Directory,
        permissions: Permissions {
            owner: Rights {
                write: true,
                ..read_and_search
            },
            group: read_and_search,
            others: read_and_search,
        },
    }
}

// The user to whom a new server's root belongs.
fn sys() -> User
    ensures { result ≡ codes "sys" }
{
    User::new("sys").unwrap()
}
