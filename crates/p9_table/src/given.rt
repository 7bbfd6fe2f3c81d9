//! Whether a mount table names only nodes that were made.

ghost use Rattle.std.specs.Prelude.{◌≡◌};
ghost use Rattle.std.specs.List.{list_all};
ghost use Rattle.p9_table.specs.Given.{is_given, is_row_given, is_table_given};

use crate::row::{Member, Members};
use crate::table::MountTable;
use p9_base::NodeRef;
use p9_tree::{Forest, Tree};
use std::alloc::Allocator;

/// Whether no key and no member of the mount table is a node that is still to be made. It holds of
/// each table that was made over the forest.
pub fn is_table_given<T: Tree, A: Allocator + Copy>(
    forest: &Forest<T>,
    table: &MountTable<A>,
) -> bool
    ensures { result ≡ is_table_given forest.now table.now }
{
    for position in 0..table.len() {
        if let Some((key, members)) = table.row(position) {
            if !is_row_given(forest, key, &members) {
                return false;
            }
        }
    }
    true
}

fn is_row_given<T: Tree>(forest: &Forest<T>, key: NodeRef, members: &Members<'_>) -> bool
    ensures { result ≡ is_row_given forest.now (key, members.now) }
{
    is_given(forest, key) && are_given(forest, members.as_slice())
}

fn are_given<T: Tree>(forest: &Forest<T>, members: &[Member]) -> bool
    ensures { result ≡ list_all (λ m. is_given forest.now m.node) members.now }
{
    members.iter().all(|m| is_given(forest, m.node))
}

/// Whether the number of the node was given. Where there is no such server none was.
pub fn is_given<T: Tree>(forest: &Forest<T>, at: NodeRef) -> bool
    ensures { result ≡ is_given forest.now at }
{
    at.number < forest.next_of(at.server)
}
