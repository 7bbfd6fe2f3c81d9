//! Lexical file names: a path made shorter by its text alone, as cleanname(2).
#![tactic(auto)]

pub mod laws;
mod path;

pub use path::{clean, cleaned_elements, elements};
