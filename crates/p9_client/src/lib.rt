//! A client of 9P2000 over any stream of two directions.
//!
//! A call of a [`Session`] asks one request, and takes the one frame that answers it. A whole file is
//! read and written by several requests at once, whose replies may come in any order. A session
//! trusts no server: a reply that is not one that was asked for is an error, and after such an error
//! it neither writes nor reads again.
#![tactic(auto)]

mod ahead;
mod entry;
mod error;
mod exchange;
mod file_error;
mod listing;
mod paths;
mod reading;
mod reason;
mod replies;
mod reply;
mod session;
mod transfer;
mod writing;

pub use ahead::AHEAD_MAX;
pub use entry::Entry;
pub use error::ClientError;
pub use file_error::FileError;
pub use listing::LISTING_MAX;
pub use p9_wire::Stream;
pub use reason::{REASON_MAX, Reason};
pub use reply::{MSIZE_MIN, Opened, VERSION};
pub use session::Session;
