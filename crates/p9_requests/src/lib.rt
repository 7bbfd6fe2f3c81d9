//! What each request of a session is answered over the trees and the mount table, and what it makes
//! of the trees and the session.
//!
//! Walks, reads, stats, clunks and removes are answered by p9_walks.
#![tactic(auto, unfolding(p9_base::specs::Results::need, p9_base::specs::Results::obtain, p9_base::specs::Results::unless))]

pub mod answer;
mod attach;
mod create;
mod frame;
mod inherit;
mod message;
mod open;
mod reply;
mod version;
mod write;
mod wstat;

pub use frame::{tag_of, write_reply};
pub use p9_walks::end::end_fids;
pub use p9_walks::session::Session;
pub use p9_walks::setting::Setting;
pub use reply::Reply;
pub use version::MSIZE_MIN;
