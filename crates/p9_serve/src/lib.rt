//! A guard served to the clients that come to a listener, in rounds: an accept, and one turn each. And
//! an input served at an address, for a number of rounds.
#![tactic(auto)]

mod clock;
mod failure;
pub mod laws;
mod listener;
mod pace;
mod run;
mod server;
mod socket;

pub use clock::Timer;
pub use failure::report_failure;
pub use listener::{Listener, Sockets};
pub use p9_clients::{Clients, Tally};
pub use p9_commands::{run_command, served_guard};
pub use p9_conn::{Conn, Stream, Turn};
pub use p9_prepared::{read_script, split_bundle};
pub use pace::Pace;
pub use run::{run_serve, serve_clients};
pub use server::{Round, Server};
pub use socket::Socket;
