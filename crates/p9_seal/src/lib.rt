//! Sealing: an input of p9 with the judge's certificate in its place.
#![tactic(auto, unfolding(p9_base::specs::Results::need))]

mod error;
mod sealing;
mod text;
mod wishes;

pub use error::{SealError, Vacuity};
pub use sealing::seal;
pub use wishes::Wishes;
