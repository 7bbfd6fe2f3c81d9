//! The guard: an exporter over a world whose certificate was verified.
//!
//! Whatever its sessions do, nothing inside a hidden directory changes, and no byte of a reply
//! depends on what is there. That is the contract of [`Guard::run`], and of [`Guard::open`],
//! [`Guard::answer`] and [`Guard::close`].
#![tactic(auto)]

mod cause;
mod guard;
pub mod laws;
mod run;

pub use cause::Cause;
pub use guard::Guard;
pub use p9_export::{Event, OpenError, is_frame};
pub use run::Stopped;
