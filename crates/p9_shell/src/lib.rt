//! What the programs have in common: how they end, what they report, their standard streams, their
//! version, and tables of what their words may be.
#![tactic(auto)]

mod arguments;
mod failure;
mod program;
pub mod status;
mod streams;
mod version;

pub use arguments::{
    ArgShape, CommandShape, Given, ProgramShape, Value, program_of, with_commands,
};
pub use failure::{Failure, exit};
pub use program::Program;
pub use streams::{given_words, input, print, tell};
pub use version::VERSION;
