//! Tests that no row of `p9_rows` has. Here are those of the server: clients in memory, an input that is served at
//! an address to a client on loopback, and allocations that fail while a client is taken in.
//!
//! `lowest` has the tests of the lowest crates, `log` those of p9_log and p9_disk, `trees` those of p9_tree and
//! p9_index, `export` those of the exporter and of p9_nsfile, `guard` those of p9_guard, `conn` those of
//! connections and of the client, and `inputs` those of the commands over an input.
//!
//! What is played is a text, as that costs a proof much less than a table of values. A function that
//! names a kind of tree costs most of all, so there are few: what they call is over trees of any kind.
#![tactic(auto)]

#[cfg(test)]
mod conn;
#[cfg(test)]
mod copied;
#[cfg(test)]
mod export;
#[cfg(test)]
mod failures;
#[cfg(test)]
mod guard;
#[cfg(test)]
mod inputs;
#[cfg(test)]
mod log;
#[cfg(test)]
mod lowest;
#[cfg(test)]
mod machine;
#[cfg(test)]
mod memory;
#[cfg(test)]
mod refused;
#[cfg(test)]
mod refused_replies;
#[cfg(test)]
mod rows;
#[cfg(test)]
mod samples;
#[cfg(test)]
mod scripts;
#[cfg(test)]
mod served;
#[cfg(test)]
mod socket;
#[cfg(test)]
mod trees;
