//! The messages of 9P2000 in words, as fcall(2) prints them, and frames from words.
#![tactic(auto)]

mod bytes;
mod class;
mod error;
mod field;
mod form;
mod key;
pub mod laws;
mod line;
mod message;
mod omitted;
mod print;
mod stat;
mod value;
mod verb;
mod word;

pub use class::{Class, prefix_len, skip_blanks};
pub use error::{Expected, Fault, ReadError, WordsError, unexpected};
pub use form::{Base, Form, Width};
pub use key::Key;
pub use line::read_words;
pub use message::{print_reply, print_request};
pub use omitted::take_message;
pub use print::{print_number, print_paired};
pub use verb::Verb;
pub use word::take_number;
