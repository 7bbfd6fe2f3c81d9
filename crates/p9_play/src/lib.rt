//! A script that is played over the name space of an input: on the guard that its certificate gives, or on
//! an exporter where there is no certificate. What is printed is the play text.
#![tactic(auto, unfolding(p9_base::specs::Results::need))]

mod guards;
pub mod laws;
mod line;
mod machine;
mod play;
mod script;

pub use guards::guard_of;
pub use script::play_script;
