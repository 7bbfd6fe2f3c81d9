//! Whom a world lists, and what these may do with a node; and certificates, with their texts.
//!
//! A world lists users and groups, and hides directories. A certificate lists directories that
//! listed users may come to search. Here it is a list that rises; whether it is closed says the
//! crate p9_cert.
#![tactic(auto)]

mod certificate;
mod classes;
mod faults;
mod inside;
pub mod laws;
mod listed;
mod read;
mod rows;
mod write;

pub use certificate::Certificate;
pub use classes::Classes;
pub use faults::{BadLine, LineFault, bad_lines};
pub use inside::{is_hidden, is_inside};
pub use listed::{Listed, listed_in, may_pass};
pub use read::{ReadError, read_cert};
pub use rows::is_row;
pub use write::write_cert;
