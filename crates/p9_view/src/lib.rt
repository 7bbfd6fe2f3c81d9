//! The name space as a user meets it.
#![tactic(auto)]

mod line;
mod met;
mod mode;
mod passing;
mod ranks;
mod text;
mod tour;
mod tree;
mod visit;
mod way;

pub use tour::{Entry, Origin, Tour};
pub use tree::{print_tree, show_tree};
pub use visit::tour_of;
pub use way::Access;
