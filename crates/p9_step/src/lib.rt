//! The step that an event makes of a state, as definitions in `specs/`: the state, and for each
//! message the outcome of its tests in the manual's order. And what follows from it alone.
#![tactic(auto)]

pub mod laws;
mod opening;

pub use opening::Opening;
