//! A log in a file, to which runs of bytes are added, and which survives a crash at any moment.
//!
//! It knows two kinds of crash ([`Crash`]). Where the process is killed, the file has all that was
//! written. Where the machine stops, what was written since the last sync may be there in any
//! order and shape.
#![tactic(auto)]

mod crash;
mod device;
mod error;
mod fuse;
mod keeping;
mod layout;
mod log;
mod memory;
mod opening;
mod reading;
mod repair;
mod room;
mod staging;

pub use crash::Crash;
pub use device::{Device, DeviceError};
pub use error::LogError;
pub use fuse::Fuse;
pub use layout::{HEAD, TAIL};
pub use log::Log;
pub use memory::MemoryDevice;
pub use opening::{Recovered, create, recover};
