//! The machine that answers 9P2000 over the trees and the mount table: one state, and one whole
//! event after another.
#![tactic(auto, unfolding(p9_base::specs::Results::need, p9_base::specs::Results::obtain, p9_base::specs::Results::unless))]

mod event;
mod export;

pub use event::Event;
pub use export::{Export, OpenError};
pub use p9_requests::MSIZE_MIN;
pub use p9_wire::is_frame;
