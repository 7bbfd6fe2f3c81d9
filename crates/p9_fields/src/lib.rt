//! The fields of 9P2000's messages, taken from the front of bytes, as intro(5).
//!
//! A field is a number, a text, a qid, a stat, or several of these. Each function returns its value
//! and the bytes after it, or `None` where the bytes begin with no such field. Nothing here
//! allocates: texts and data are slices of the bytes.
#![tactic(auto)]

mod fields;
mod names;
mod qids;
mod stat;

pub use fields::{
    take_counted, take_end, take_header, take_names, take_qid, take_qids, take_sized_stat,
    take_stat, take_text, take_u8, take_u16, take_u32, take_u64,
};
pub use names::{MAXWELEM, Names};
pub use qids::Qids;
pub use stat::{STAT_FIXED, Stat};
