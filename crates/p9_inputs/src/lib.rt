//! The commands of `p9_admin` over an input: to seal it, to explain it, to show its name space, and to draw
//! it. Their options and words stand beside them, so that a program takes both from here.
#![tactic(auto)]

mod added;
mod command;
mod drawn;
mod explained;
mod sealed;
pub mod shapes;
mod shown;

pub use command::InputCommand;
pub use drawn::map;
pub use explained::explain;
pub use sealed::seal;
pub use shown::tree;
