//! The program's commands over bytes in memory. An input is prepared once. Then the script is played,
//! what is hidden is judged, the certificate is verified, the mount table is printed, or a guard is
//! made for a server.
#![tactic(auto, unfolding(p9_base::specs::Results::need))]

mod command;
mod judgement;
mod listing;
mod offer;

pub use command::{BadCommandLine, Command, run, run_command, run_command_over};
pub use offer::{served_guard, served_guard_over};
