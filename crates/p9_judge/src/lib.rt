//! The judge: whether listed users may come into a hidden directory.
//!
//! [`judge`] goes through a world as listed users may, place by place. It returns the least
//! [`Certificate`](p9_cert::Certificate) that is closed, or a [`Breach`]: a way into a hidden
//! directory, or to one that listed users may use, rule or remove.
#![tactic(auto)]

mod breach;
pub mod laws;
mod listed;
mod member;
mod search;
mod verdict;

pub use breach::{Breach, BreachKind, Step};
pub use listed::Listed;
pub use verdict::{Verdict, judge};
