//! Streams whose clients attach as the users alone who may come that way.
#![tactic(auto)]

mod front;
mod held;
pub mod laws;
mod names;
mod passing;
mod stream;

pub use names::has_no_blank_name;
pub use stream::Restricted;
