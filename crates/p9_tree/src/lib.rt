//! Servers' trees of files in memory, as intro(5) and stat(5).
//!
//! A server's tree is seen as the list of its nodes, by rising number, and the number that the
//! next new node gets, whichever way it is kept: the trait [`Tree`] says what it does to that
//! list. A [`Forest`] has the trees of all servers.
#![tactic(auto)]

mod bytes;
mod change;
mod forest;
mod forest_change;
mod journal;
mod kept;
mod new;
mod node;
mod plain;
mod saved;
mod tree;
mod tree_change;
mod trees;

pub use bytes::{FILE_MAX, fits_file};
pub use change::Change;
pub use forest::Forest;
pub use forest_change::ForestChange;
pub use journal::{Journal, NoJournal, Unsettled};
pub use new::New;
pub use node::{Entry, Node};
pub use plain::PlainTree;
pub use saved::Saved;
pub use tree::{NEXT_MAX, Tree};
pub use tree_change::TreeChange;
