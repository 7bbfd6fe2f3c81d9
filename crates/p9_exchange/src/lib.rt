//! Scripts in words. A script in words is written as the script that `p9 play` reads, and what was
//! printed for it is shown beside it, as an exchange of requests and replies in words.
#![tactic(auto)]

mod exchange;
mod input;
mod line;
mod message;
mod refusal;
mod script;
mod session;
mod talk;

pub use exchange::show_exchange;
pub use refusal::{Awaited, Refusal, Stop};
pub use script::write_script;
