//! What a new file or directory is made of.

ghost use Rattle.std.specs.Prelude.{◌≡◌};

use p9_base::{Mode, Name, User};

/// A node's fields as it is made, but for its number, its parent, and its version, which is 0.
#[derive(Clone, Copy)]
pub struct New<'a> {
    pub name: Name,
    pub mode: Mode,
    pub uid: User,
    pub gid: User,
    pub muid: User,
    /// In seconds since 1970, modulo 2^32.
    pub atime: u32,
    /// In seconds since 1970, modulo 2^32.
    pub mtime: u32,
    /// Empty for a directory.
    pub bytes: &'a [u8],
}

impl<'a> New<'a> {
    /// The same fields.
    pub(crate) fn copied(&self) -> New<'a>
        ensures { result ≡ self.now }
    {
        New {
            name: self.name,
            mode: self.mode,
            uid: self.uid,
            gid: self.gid,
            muid: self.muid,
            atime: self.atime,
            mtime: self.mtime,
            bytes: self.bytes,
        }
    }
}
