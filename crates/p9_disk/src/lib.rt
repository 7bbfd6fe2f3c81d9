//! A file of the system as a device of p9_log, and a draft beside it.
//!
//! Each method of [`FileDevice`] makes calls of the system, and notes each of them with its answer in a
//! record that only proofs read. What a reader sees, and what a crash may leave, is defined from the
//! record (`specs/`), and each clause of `Device` is proved from it. That a method makes the calls that it
//! notes, and that the system does what they say, no proof shows.
#![tactic(auto)]

mod file_device;
mod opening;
mod record;
mod writing;

pub use file_device::FileDevice;
