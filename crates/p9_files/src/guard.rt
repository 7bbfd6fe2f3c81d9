//! When the entries of a directory may be exchanged while they are opened.

ghost use Rattle.std.specs.Prelude.{◌≡◌};
ghost use Rattle.p9_files.specs.Guard.{is_at_rest, may_others_write};

// The bits that let the group and others write.
const OTHERS_WRITE: u32 = 0o022;

// A directory that did not change for so many seconds is at rest.
const REST: u64 = 10;

/// Whether somebody else than this user and root may change the entries of a directory of this owner
/// and mode.
pub fn may_others_write(user: u32, owner: u32, mode: u32) -> bool
    ensures { result ≡ may_others_write user owner mode }
{
    (owner != user && owner != 0) || mode & OTHERS_WRITE != 0
}

/// Whether a directory that changed in the second `changed` is at rest in the second `now`: it has
/// not changed for ten seconds.
pub fn is_at_rest(changed: u64, now: u64) -> bool
    ensures { result ≡ is_at_rest changed now }
{
    now >= REST && changed <= now - REST
}
