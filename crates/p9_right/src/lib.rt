//! By which right a user may do something with a node, for those who tell of it.
#![tactic(auto)]

mod class;
mod right;

pub use class::{Class, class_of, ruling_class};
pub use right::{Deed, Right, altering_right, right_of};
