//! What a user may do with a file.

ghost use Rattle.std.specs.Prelude.{◌≡◌};
ghost use Rattle.p9_table.specs.Rights.{may, rules, who_view};

use p9_base::{Groups, Rights, User, granted};
use p9_tree::Node;
use std::alloc::Allocator;

/// To read a file, or to list a directory.
pub const TO_READ: Rights = Rights {
    read: true,
    write: false,
    execute: false,
};

/// To write a file, or to change a directory's entries.
pub const TO_WRITE: Rights = Rights {
    read: false,
    write: true,
    execute: false,
};

/// To execute a file, or to search a directory.
pub const TO_EXECUTE: Rights = Rights {
    read: false,
    write: false,
    execute: true,
};

/// A user, and the groups that are listed.
#[derive(Clone, Copy)]
pub struct Who<'a, A: Allocator + Copy> {
    pub user: &'a User,
    pub groups: &'a Groups<A>,
}

/// Whether the user has each wanted right of the node, as intro(5).
pub fn may<A: Allocator, B: Allocator + Copy>(
    who: Who<'_, B>,
    node: &Node<A>,
    wanted: Rights,
) -> bool
    ensures { result ≡ may (who_view who.entry) node.now wanted }
{
    granted(
        node.mode().permissions,
        node.uid() == who.user,
        who.groups.member(who.user, node.gid()),
        wanted,
    )
}

/// Whether the user rules the node: owns it, or leads its group. Who rules a node may change its
/// mode, as stat(5).
pub fn rules<A: Allocator, B: Allocator + Copy>(who: Who<'_, B>, node: &Node<A>) -> bool
    ensures { result ≡ rules (who_view who.entry) node.now }
{
    node.uid() == who.user || who.groups.leads(who.user, node.gid())
}
