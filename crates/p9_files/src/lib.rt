//! Files of the system: a directory whose entries are opened without following a link, and a file
//! that takes the place of another only once all of it is written.
#![tactic(auto)]

mod dir;
mod guard;
mod new_file;

pub use dir::{Dir, Listing};
pub use new_file::{NewFile, OUTPUT_MODE};
