//! The permissions that a new file takes over from its directory, as open(5).

ghost use Rattle.std.specs.Prelude.{◌≡◌, if◌then◌else◌};
ghost use Rattle.p9_step.specs.Inherit.{dir_rights, file_rights, inherited};

use p9_base::{Mode, Permissions, Rights};

/// The mode that a new node gets in a directory of these permissions: to read and to write it is
/// given only where the directory gives it, and so is to search a new directory.
pub fn inherited(dir: Permissions, asked: Mode) -> Mode
    ensures { result ≡ inherited dir asked }
{
    let is_dir = asked.is_dir();
    Mode {
        kind: asked.kind,
        permissions: Permissions {
            owner: inherited_rights(is_dir, dir.owner, asked.permissions.owner),
            group: inherited_rights(is_dir, dir.group, asked.permissions.group),
            others: inherited_rights(is_dir, dir.others, asked.permissions.others),
        },
    }
}

// The rights of one class.
fn inherited_rights(is_dir: bool, dir: Rights, asked: Rights) -> Rights
    ensures { result ≡ (if is_dir then dir_rights else file_rights) dir asked }
{
    Rights {
        read: asked.read && dir.read,
        write: asked.write && dir.write,
        execute: asked.execute && (dir.execute || !is_dir),
    }
}
