//! A forest whose changes are kept through a crash.
#![tactic(auto)]

mod drafting;
mod file_journal;
pub mod laws;
mod living;
mod noting;
mod reopening;
mod replaying;
mod slots;

pub use file_journal::{FileJournal, RenewError};
pub use living::{Step, live};
pub use reopening::{ReopenError, Reopened, reopen, resume};
pub use replaying::{Refused, replay};
