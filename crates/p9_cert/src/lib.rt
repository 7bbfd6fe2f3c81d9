//! Certificates: lists of directories beyond which no listed user comes, and the check of one.
//!
//! A world hides directories. A certificate lists every directory that listed users may come to
//! search, so to look at its rows and their children is enough to know that no walk leads into a
//! hidden directory. Who made it isn't trusted: [`verify`] tests it against the world and the mount
//! table, and returns the first [`Gap`].
#![tactic(auto)]

mod check;
mod gap;
pub mod laws;
mod place;

pub use check::verify;
pub use gap::{Gap, MemberFault, RowFault};
pub use p9_policy::{
    BadLine, Certificate, Classes, LineFault, ReadError, bad_lines, is_hidden, is_inside, may_pass,
    read_cert, write_cert,
};
pub use place::member_fault;
