//! Namespace files, as namespace(6): the mounts and binds of a user, run into a mount table.
//!
//! What a single line is and does is p9_nsline's.
#![tactic(auto)]

mod run;

pub use p9_nsline::{BadForm, NsError, OpFault};
pub use run::{NESTED_MAX, run_file};
