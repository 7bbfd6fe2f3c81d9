//! Walks along trails over the mount table and the servers, as walk(5).
//!
//! The mount table, trails and rights are p9_table's. Cleaning a path needs none of these, so
//! [`clean`] is p9_clean's.
#![tactic(auto)]

mod channel;
mod walk;
mod way;

pub use channel::{Channels, advance};
pub use p9_clean::clean;
pub use p9_table::{
    Member, Members, MountTable, Order, PLACES_MAX, ROOT_PLACE, Step, TO_EXECUTE, TO_READ,
    TO_WRITE, Trail, UnmountError, Who, is_given, is_table_given, may, rules,
};
pub use walk::{Arrival, dir_fault, resolve};
pub use way::{Way, advance_on, find_arrival_on};
