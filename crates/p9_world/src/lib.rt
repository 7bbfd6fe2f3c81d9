//! A user's own world: a text that describes servers, their trees, users, groups, hidden
//! directories and variables, and the world that its lines make.
//!
//! [`read_world`] reads it. Each operation is in a module of its own, and the definition of
//! what it means in the file of `specs/` beside it.
//!
//! A [`WorldLine`] is a line by its fields, whose types leave out what a world's text can't have.
//! [`write_line`] writes it. The law in [`laws`] says that [`read_world`] reads what is written as
//! the world that the lines ask for.
#![tactic(auto, unfolding(p9_base::specs::Results::need, p9_base::specs::Results::obtain))]

mod blame;
mod entry;
mod error;
mod expected;
mod faults;
mod group;
mod guess;
mod hide;
mod last_dir;
pub mod laws;
mod line;
mod line_words;
mod mode;
mod node_line;
mod path;
mod plain_name;
mod plain_user;
mod positions;
mod put;
mod read;
mod reader;
mod server;
mod server_name;
mod unfit;
mod user;
mod variable;
mod word;
mod world;
mod write;

pub use error::{LineFault, WorldError};
pub use faults::{BadLine, bad_lines};
pub use line::{DirLine, FileLine, GroupLine, HideLine, WorldLine};
pub use line_words::{LineWords, NodeWords};
pub use node_line::{NodeLine, node_lines};
pub use plain_name::PlainName;
pub use plain_user::PlainUser;
pub use read::read_world;
pub use server_name::ServerName;
pub use unfit::{Unfit, fit_size};
pub use world::World;
pub use write::{
    write_dir, write_file, write_group, write_hide, write_line, write_server, write_user,
};
