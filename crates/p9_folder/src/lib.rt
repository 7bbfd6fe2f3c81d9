//! The folder in which a server keeps what clients change: who has it, its files, and what is kept in it.
//!
//! What fails is reported under the name of the program that asks.
#![tactic(auto)]

mod folder;
mod found;
mod kept;
mod reading;
mod resuming;
mod start;

pub use folder::{EXPORT, Folder, JOURNAL, belongs_to};
pub use found::Found;
pub use kept::{Kept, read_kept};
pub use resuming::{go_on_with, reopen_for};
pub use start::{forget_start, last_crash, note_start};
