//! Name spaces in which no listed user can change anything that he can come to.
//!
//! A certificate that is closed has every directory that listed users may come to search. So to look
//! at the root place, and at each child of a row, is to look at all that they come to.
//! [`first_change`] does so, and returns the first node that one of them can change.
#![tactic(auto)]

mod change;
mod check;
mod member;
mod who;

pub use change::{Change, ChangeKind};
pub use check::first_change;
pub use who::changer;
