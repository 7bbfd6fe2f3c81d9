//! Connections: frames that come over a stream in any pieces are answered by a guard, and the
//! replies go out in any pieces.
//!
//! A [`Conn`] does one thing a [`Conn::turn`], so that many connections are served in turn by one
//! thread. What it makes of the bytes that it reads doesn't depend on how they are cut:
//! [`laws`] has that for any list of turns of any connections.
#![tactic(auto)]

mod conn;
pub mod laws;
mod room;
mod window;

pub use conn::{Conn, Turn};
pub use p9_wire::Stream;
