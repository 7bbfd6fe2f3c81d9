//! The words that all layers share: names, users, groups, modes, rights, qids, faults, lines of text
//! and what ends a call.
//!
//! Nothing here allocates but groups, and the splitting of a text into lines and words. Contracts
//! see the name of a file or a user as a list of bytes, groups as a list of them by name, and every
//! other type as the record or the case that it is.
#![tactic(auto)]

mod decimal;
mod fault;
mod fid;
mod group;
mod line;
mod memory;
mod mode;
mod name;
mod node_ref;
mod qid;
mod rights;
mod statement;
mod stop;
mod text;
mod user;

pub use decimal::number;
pub use fault::{FAULT_TEXT_MAX, Fault};
pub use fid::NOFID;
pub use group::{Group, Groups};
pub use line::{is_skipped, lines, whole_lines, words};
pub use memory::NoMemory;
pub use mode::{DMAPPEND, DMDIR, DMEXCL, DMTMP, FileFlags, Kind, Mode, Permissions, Rights};
pub use name::{Name, valid_name};
pub use node_ref::{NodeRef, SERVERS_MAX};
pub use qid::Qid;
pub use rights::granted;
pub use statement::{Statement, statements};
pub use stop::Stop;
pub use text::is_text;
pub use user::User;
