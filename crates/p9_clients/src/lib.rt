//! The clients of a guard, over any stream: connections in a slab, one turn each in a round.
#![tactic(auto)]

mod clients;

pub use clients::{Clients, Tally};
pub use p9_conn::{Conn, Stream, Turn};
