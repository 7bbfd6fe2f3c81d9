//! The fids of a session, as intro(5): what a client holds on to, and what each is open for.
#![tactic(auto)]

mod fid;
mod opened;
mod table;

pub use fid::Fid;
pub use opened::{Cursor, OpenMode, Opened};
pub use table::{FIDS_MAX, FidTable};
