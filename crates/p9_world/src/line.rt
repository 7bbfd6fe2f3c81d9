//! The lines of a world's text, by their fields.

use crate::plain_name::PlainName;
use crate::plain_user::PlainUser;
use crate::server_name::ServerName;
use p9_base::{FileFlags, Permissions};

/// A line of a world's text.
#[derive(Clone, Copy)]
pub enum WorldLine<'a> {
    /// A server of this name joins after the others.
    Server(ServerName),
    /// A directory joins the last server, or the root of that server is changed.
    Dir(DirLine<'a>),
    /// A file joins the last server.
    File(FileLine<'a>),
    /// A user of this name joins those that are listed.
    User(PlainUser),
    /// A group joins those that are listed.
    Group(GroupLine<'a>),
    /// A directory of a server is hidden.
    Hide(HideLine<'a>),
}

/// What a line says of a directory.
#[derive(Clone, Copy)]
pub struct DirLine<'a> {
    /// The names from the root of the server on. The root has none.
    pub path: &'a [PlainName],
    pub permissions: Permissions,
    pub uid: PlainUser,
    pub gid: PlainUser,
}

/// What a line says of a file.
#[derive(Clone, Copy)]
pub struct FileLine<'a> {
    /// The names from the root of the server on. Without a name the line is read as a fault.
    pub path: &'a [PlainName],
    pub flags: FileFlags,
    pub permissions: Permissions,
    pub uid: PlainUser,
    pub gid: PlainUser,
    /// The file's bytes. With more than [`p9_tree::FILE_MAX`] the line is read as a fault.
    pub bytes: &'a [u8],
}

/// What a line says of a group.
#[derive(Clone, Copy)]
pub struct GroupLine<'a> {
    pub name: PlainUser,
    pub leader: PlainUser,
    /// The members. Where a name is there twice, the line is read as a fault.
    pub members: &'a [PlainUser],
}

/// Which directory a line hides.
#[derive(Clone, Copy)]
pub struct HideLine<'a> {
    pub server: ServerName,
    /// The names from the root of the server on. The root has none.
    pub path: &'a [PlainName],
}
