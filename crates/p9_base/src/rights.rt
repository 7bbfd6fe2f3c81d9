//! Who may do what with a file, as intro(5).

ghost use Rattle.std.specs.Prelude.{◌≡◌};
ghost use Rattle.p9_base.specs.Rights.{is_granted, rights_cover, rights_or};

use crate::mode::{Permissions, Rights};

impl Rights {
    /// The rights that either gives.
    pub fn or(self, other: Rights) -> Rights
        ensures { result ≡ rights_or self other }
    {
        Rights {
            read: self.read || other.read,
            write: self.write || other.write,
            execute: self.execute || other.execute,
        }
    }

    /// Whether each wanted right is among these.
    pub fn covers(self, wanted: Rights) -> bool
        ensures { result ≡ rights_cover self wanted }
    {
        (self.read || !wanted.read)
            && (self.write || !wanted.write)
            && (self.execute || !wanted.execute)
    }
}

/// Whether the permissions grant each wanted right to a user who is the file's owner or not, and a
/// member of its group or not.
///
/// A right of the others is everybody's. Each right is asked by itself: one may come from the
/// owner's bits and another from the group's.
pub fn granted(permissions: Permissions, owner: bool, member: bool, wanted: Rights) -> bool
    ensures { result ≡ is_granted permissions owner member wanted }
{
    let mut given = permissions.others;
    if member {
        given = permissions.group.or(given);
    }
    if owner {
        given = permissions.owner.or(given);
    }
    given.covers(wanted)
}
