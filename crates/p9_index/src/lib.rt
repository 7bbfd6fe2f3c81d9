//! A tree of files in ordered maps.
//!
//! [`IndexTree`] is a [`Tree`](p9_tree::Tree) in which a node is found by its number, by its name
//! in a directory, or as the next of a directory, without going over the others.
#![tactic(auto)]

mod entries;
mod kept;
mod names;
mod tree;

pub use tree::IndexTree;
