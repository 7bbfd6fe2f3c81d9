//! Tests of connections: bytes that come and go in pieces, streams that fail, allocations that
//! fail, and memory that is freed. And of the client.

mod client;
mod faults;
mod lent;
mod pieces;
mod plays;
mod restricted;
mod scripted;

pub use scripted::{Answer, Scripted, Tape};
