//! The lines of a namespace file, as namespace(6): what the words of a line say, and what its
//! operation does to a name space. p9_nsfile runs the lines of a file.
//!
//! An [`Environment`] is what no operation changes, and a [`Space`] is the name space that is being
//! made. An operation that is refused leaves the name space unchanged.
#![tactic(auto)]

pub mod bind;
mod directory;
mod environment;
mod error;
mod fault;
mod faults;
mod find;
mod flags;
mod include;
mod line;
mod operation;
mod space;
mod variable;

pub use directory::cd;
pub use environment::Environment;
pub use error::{BadForm, NsError};
pub use fault::{OpFault, Stop};
pub use faults::{BadLine, bad_lines};
pub use flags::Flags;
pub use include::find_lines;
pub use line::{Line, read_lines};
pub use operation::{Operation, read_operation};
pub use space::Space;
