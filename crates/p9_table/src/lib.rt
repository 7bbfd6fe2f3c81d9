//! The mount table: the rows, members, trails and rights that walks stand on, as bind(1).
//!
//! A mount table is seen as the list of its rows, each a key and the members that stand for it in a
//! union directory, and a trail as the list of its places.
#![tactic(auto)]

mod given;
mod rights;
mod row;
mod table;
mod trail;

pub use given::{is_given, is_table_given};
pub use rights::{TO_EXECUTE, TO_READ, TO_WRITE, Who, may, rules};
pub use row::{Member, Members, Order};
pub use table::{MountTable, UnmountError};
pub use trail::{PLACES_MAX, ROOT_PLACE, Step, Trail, above, last, position_above};
