//! What a world can't have.

ghost use Rattle.std.specs.Prelude.{◌≡◌};
ghost use Rattle.p9_world.specs.Unfit.{unfit_size};

use p9_tree::FILE_MAX;
use thiserror::Error;

/// Why a world can't have a name, an owner, a server or a file.
#[derive(Clone, Copy, Debug, PartialEq, Eq, Error)]
pub enum Unfit {
    /// A file's name has no byte, more than 255 bytes, a `/` or a NUL, or is `.` or `..`.
    #[error("no name of a file")]
    NotName,
    /// A file's name has a blank, a tab or a newline.
    #[error("a blank in the name")]
    BlankInName,
    /// The name of a user or a group has no byte, more than 63 bytes or a NUL.
    #[error("no name of a user")]
    NotUser,
    /// The name of a user or a group has a blank, a tab or a newline.
    #[error("a blank in the name of a user")]
    BlankInUser,
    /// A server's name has no byte, more than 63 bytes, or one of `/`, `#`, `$` and NUL.
    #[error("no name of a server")]
    NotServer,
    /// A server's name has a blank, a tab or a newline.
    #[error("a blank in the name of a server")]
    BlankInServer,
    /// A file has more bytes than [`p9_tree::FILE_MAX`].
    #[error("more than 16777216 bytes")]
    TooLarge,
}

/// Tests the number of a file's bytes.
///
/// # Errors
///
/// [`Unfit::TooLarge`], where there are more than [`p9_tree::FILE_MAX`].
pub fn fit_size(len: u64) -> Result<(), Unfit>
    ensures { result ≡ unfit_size len }
{
    if len > FILE_MAX as u64 {
        return Err(Unfit::TooLarge);
    }
    Ok(())
}
