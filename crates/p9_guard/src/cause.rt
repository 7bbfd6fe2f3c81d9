//! Why no guard is made.

use p9_base::NoMemory;
use p9_cert::Gap;
use thiserror::Error;

/// Why no guard is made over a world and a mount table.
#[derive(Clone, Copy, Debug, PartialEq, Eq, Error)]
pub enum Cause {
    /// The certificate is not closed: this is the first gap.
    #[error("{0}")]
    Gap(Gap),
    /// An allocation failed.
    #[error("out of memory")]
    NoMemory,
}

impl From<NoMemory> for Cause {
    ghost use Rattle.std.specs.Prelude.{◌≡◌};
    ghost use Rattle.p9_guard.specs.declared.cause.Cause.TheVariants.{NoMemory as OutOfMemory};

    ghost from_gives = { λ _ cause. cause ≡ OutOfMemory };

    fn from(_error: NoMemory) -> Cause {
        Cause::NoMemory
    }
}
