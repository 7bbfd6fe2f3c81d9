//! Which file of which server.

ghost use Rattle.std.specs.Prelude.{◌≡◌};
ghost use Rattle.p9_base.specs.NodeRef.{beside};

/// The most servers: a server's number has 16 bits.
pub const SERVERS_MAX: usize = 1 << 16;

/// A file or directory, by its server's number and its own number there.
///
/// The order is by server, then number. A number is never given twice, so a reference to a file
/// that was removed refers to nothing from then on.
#[derive(Clone, Copy, Debug, PartialEq, Eq, PartialOrd, Ord, Hash)]
pub struct NodeRef {
    /// The server, counted from 0 in the order of their making.
    pub server: u16,
    /// The file's number at its server: 0 for the root, below 2^48.
    pub number: u64,
}

impl NodeRef {
    /// The file of this number at the same server.
    pub fn beside(self, number: u64) -> NodeRef
        ensures { result ≡ beside self number }
    {
        NodeRef {
            server: self.server,
            number,
        }
    }
}
