//! What a wstat changes in a node.

use p9_base::{Mode, Name, User};

/// What a wstat changes in a node, all at once, as stat(5). What is `None` stays.
#[derive(Clone, Copy)]
pub struct Change {
    pub name: Option<Name>,
    pub mode: Option<Mode>,
    pub gid: Option<User>,
    /// How many bytes the file is to have.
    pub length: Option<u64>,
    /// In seconds since 1970, modulo 2^32.
    pub mtime: Option<u32>,
    /// The user who changes it.
    pub user: User,
    /// The clock reading, in seconds since 1970, modulo 2^32.
    pub clock: u32,
}
