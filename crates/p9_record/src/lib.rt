//! The bytes of changes of a forest, as a journal has them: each change is spelled in one way, and read
//! back from it.
#![tactic(auto)]

mod closed;
pub mod laws;
mod reading;
mod writing;

pub use closed::{is_earlier, put_closed, take_closed};
pub use writing::data_len;
