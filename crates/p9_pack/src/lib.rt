//! What the text of a world is made from: a world as it is now, and the accounts of a system.
//!
//! [`write_world`] writes the lines of a world by `p9_world`. [`Accounts`] gives names for the numbers of users
//! and groups.
#![tactic(auto)]

mod account;
mod accounts;
mod once;
mod same;
mod world_text;

pub use accounts::Accounts;
pub use same::is_same_world;
pub use world_text::{UnfitNode, unfit_nodes, write_world};
