//! Tests of the client: over a stream that a guard answers, over hostile replies, and with
//! allocations that fail.

mod ahead;
mod answered;
mod calls;
mod hostile;
mod pieces;
mod plays;
mod sessions;
