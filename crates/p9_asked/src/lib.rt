//! What the words of p9's command line ask for.
#![tactic(auto)]

mod words;

pub use words::{Asked, command_asked};
