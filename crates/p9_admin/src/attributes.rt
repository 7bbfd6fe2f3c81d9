//! Whose a directory or file is, and its permissions.

ghost use Rattle.std.specs.Prelude.{◌≡◌};
ghost use Rattle.p9_admin.specs.Mode.{kept_bits, lost_mode};

use crate::owner::{group_of, owner_of};
use crate::reason::Reason;
use crate::settings::Settings;
use p9_base::Permissions;
use p9_pack::Accounts;
use p9_world::PlainUser;
use std::alloc::Global;
use std::fs::Metadata;
use std::os::unix::fs::MetadataExt;

/// Whose a directory or file is, and its permissions.
#[derive(Clone, Copy)]
pub(crate) struct Attributes {
    pub uid: PlainUser,
    pub gid: PlainUser,
    pub permissions: Permissions,
    /// The bits of the mode, where it has some beside the permissions.
    pub lost: Option<u32>,
}

/// Whose a directory or file is and its permissions, or why a world can't have it.
pub(crate) fn attributes_of(
    settings: &Settings,
    accounts: &Accounts<'_, Global>,
    metadata: &Metadata,
) -> Result<Attributes, Reason> {
    let mode = metadata.mode();
    Ok(Attributes {
        uid: owner_of(settings.owner, accounts, metadata.uid())?,
        gid: group_of(settings.group_owner, accounts, metadata.gid())?,
        permissions: Permissions::from_bits(kept_bits(mode)),
        lost: lost_mode(mode),
    })
}

// The permission bits of a mode.
fn kept_bits(mode: u32) -> u32
    ensures { result ≡ kept_bits mode }
{
    mode % 0o1000
}

// The bits of a mode without the type of the file, where a world doesn't keep them all.
fn lost_mode(mode: u32) -> Option<u32>
    ensures { result ≡ lost_mode mode }
{
    let bits = mode % 0o10000;
    (bits >= 0o1000).then_some(bits)
}
