//! What a server reports of a file's identity, as intro(5).

/// A server's unique identification of a file: two files are the same exactly where their paths
/// are, and its version grows with each change of its contents.
#[derive(Clone, Copy, Debug, Default, PartialEq, Eq)]
pub struct Qid {
    /// The manual's `type`, the high byte of the file's mode: `0x80` for a directory.
    pub kind: u8,
    /// How often the file was changed, modulo 2^32.
    pub version: u32,
    /// The file's number among all files of all servers.
    pub path: u64,
}
