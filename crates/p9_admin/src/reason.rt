//! Why something is left out or refused.

use p9_world::Unfit;
use std::io::{self, ErrorKind};
use thiserror::Error;

/// Why something of the disk is left out of a world, or can't be what an option names.
#[derive(Clone, Copy, Debug, Error)]
pub(crate) enum Reason {
    /// A world can't have it.
    #[error("{0}")]
    Unfit(Unfit),
    /// A world can't have its name, which has a blank, a tab or a newline.
    #[error("a blank, tab or newline in the name, which no line of a world can have; --rename C=TEXT replaces it, as ' =_'")]
    Blank,
    /// It was renamed to a name that another entry of the directory gets, too.
    #[error("another entry of the directory is renamed to the same, or has that name")]
    SameName,
    /// A link, which is not followed.
    #[error("a link")]
    Link,
    /// A device, a pipe or a socket.
    #[error("a device")]
    Device,
    /// The owner is no user.
    #[error("no user of number {0}")]
    NoUser(u32),
    /// The group is no group.
    #[error("no group of number {0}")]
    NoGroup(u32),
    /// The system refused it.
    #[error("{0}")]
    System(io::Error),
    /// What is to be a server or hidden is no directory.
    #[error("not a directory")]
    NotDirectory,
    /// Another directory became a server of this name.
    #[error("a server of this name is there already")]
    SameServer,
    /// There is no such directory.
    #[error("no such directory")]
    NoDirectory,
    /// It is inside of another hidden directory, or has one inside.
    #[error("another --hide is on its path; with --with-hidden both are there")]
    Nested,
}

impl Reason {
    /// Whether an allocation failed.
    pub fn is_no_memory(self) -> bool {
        match self {
            Reason::System(error) => error.kind() == ErrorKind::OutOfMemory,
            _ => false,
        }
    }
}

impl From<io::Error> for Reason {
    fn from(error: io::Error) -> Reason {
        Reason::System(error)
    }
}

impl From<Unfit> for Reason {
    fn from(unfit: Unfit) -> Reason {
        match unfit {
            Unfit::BlankInName => Reason::Blank,
            unfit => Reason::Unfit(unfit),
        }
    }
}
