//! Laws of what is inside hidden directories.
//!
//! A node is inside a hidden directory if that is in its chain of parents. Whoever compares two
//! forests that differ only there leaves the insides out of both: these laws say that no look-up
//! and no change outside can tell. Each function is one law, for a server and for a forest: its
//! contract states it, and its body is empty.
#![tactic(auto)]

mod changes;
mod lookups;
mod meaning;
mod two_forests;
mod worlds;

pub use changes::{
    add_spares_insides, change_spares_insides, changes_in_turn_spare_insides, drop_spares_insides,
    named_changes_spare_insides, next_is_free, parent_decides,
};
pub use lookups::{
    outer_keeps_bytes, outer_keeps_child, outer_keeps_child_after, outer_keeps_children,
    outer_keeps_dir_test, outer_keeps_next, outer_keeps_node,
};
pub use meaning::{
    barred_is_hidden_or_inside, inside_by_parent, insides_are_split, nothing_inside_itself,
    only_nodes_hide, pass_is_chain,
};
pub use two_forests::{inside_in_both, next_in_both, seen_in_both};
pub use worlds::small_worlds;
