//! A change of a forest, as a value.

use crate::tree_change::TreeChange;

/// A change of the trees of all servers.
#[derive(Clone, Copy)]
pub enum ForestChange<'a> {
    /// A server joins behind the others, with a tree of a root alone, as
    /// [`with_root`](crate::Tree::with_root) makes it.
    AddServer,
    /// The tree of the server changes. Where there is no such server, nothing does.
    OnServer { server: u16, change: TreeChange<'a> },
}
