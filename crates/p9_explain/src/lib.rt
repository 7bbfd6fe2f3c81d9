//! The verdict over an input of p9 in words: what is claimed, whether it holds, and why not; and of
//! an input with faults all bad lines, each with what was expected there.
#![tactic(auto, unfolding(p9_base::specs::Results::need))]

mod bound;
mod breach;
mod certificate;
mod change;
mod claim;
mod column;
mod explained;
mod faults;
mod free;
mod hints;
mod leaks;
mod member;
mod passing;
mod right;
mod source;
mod strangers;
mod teller;
mod walker;

pub use change::explain_change;
pub use explained::explain;
