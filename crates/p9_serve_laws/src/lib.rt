//! Two servers side by side, whose states differ only inside hidden directories, as laws of the
//! definitions that a server is proved to follow. Each function does nothing: its clause is the
//! law.
#![tactic(auto)]

pub mod beside;
pub mod decided;
pub mod inputs;
pub mod twins;
