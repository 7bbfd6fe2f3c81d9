//! The messages of 9P2000 as bytes, and back.
//!
//! A frame is `size[4] type[1] tag[2]` and a body, as intro(5) lays it out. The codec is exact in
//! both directions: a message with a tag has one spelling, which the writers put at the front of
//! the caller's buffer, and the readers return a message exactly where some message has these
//! bytes. Nothing here allocates: texts and data are slices of the frame. A [`Stream`] is what frames
//! go over, both ways.
#![tactic(auto)]

mod constants;
mod fits;
mod frame;
pub mod laws;
mod message;
pub mod put;
mod r_reading;
mod r_writing;
mod stat_reading;
mod stream;
mod t_reading;
mod t_writing;

pub use constants::{HEADER, IOHDRSZ, MSIZE_MAX, NOTAG, READ_HEADER};
pub use frame::{Frame, frame_of, is_frame};
pub use message::{RMsg, TMsg};
pub use p9_fields::{MAXWELEM, Names, Qids, STAT_FIXED, Stat};
pub use put::write_stat;
pub use r_reading::read_r;
pub use r_writing::{finish_read, write_r};
pub use stat_reading::read_stat;
pub use stream::Stream;
pub use t_reading::read_t;
pub use t_writing::write_t;
