//! A node as it is kept outside a tree.

ghost use Rattle.std.specs.Prelude.{◌≡◌};

use crate::node::Entry;
use p9_base::{Mode, User};

/// All fields of a node, as they are kept outside a tree. The tree that it is put back into gets a
/// node with these fields.
#[derive(Clone, Copy)]
pub struct Saved<'a> {
    /// Its number at its server. The root's is 0.
    pub number: u64,
    /// The directory that it is in, and its name there. The root has none.
    pub entry: Option<Entry>,
    pub mode: Mode,
    pub uid: User,
    pub gid: User,
    pub muid: User,
    pub version: u32,
    /// In seconds since 1970, modulo 2^32.
    pub atime: u32,
    /// In seconds since 1970, modulo 2^32.
    pub mtime: u32,
    /// Empty for a directory.
    pub bytes: &'a [u8],
}

impl<'a> Saved<'a> {
    /// The same fields.
    pub(crate) fn copied(&self) -> Saved<'a>
        ensures { result ≡ self.now }
    {
        Saved {
            number: self.number,
            entry: self.entry,
            mode: self.mode,
            uid: self.uid,
            gid: self.gid,
            muid: self.muid,
            version: self.version,
            atime: self.atime,
            mtime: self.mtime,
            bytes: self.bytes,
        }
    }
}
