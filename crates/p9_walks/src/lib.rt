//! What is answered by who asks for a file that is there: walks, reads, stats, clunks and removes; and
//! what every request goes by: a session, and what no event changes.
#![tactic(auto, unfolding(p9_base::specs::Results::need, p9_base::specs::Results::obtain, p9_base::specs::Results::unless))]

pub mod clunk;
pub mod end;
mod listing;
pub mod qid;
pub mod read;
pub mod remove;
pub mod rights;
pub mod session;
pub mod setting;
pub mod stat;
pub mod walk;
