//! Why a call ends before its work is done.

use crate::memory::NoMemory;

/// Why a call ends before its work is done: what it was asked is refused, for a reason `R`, or an
/// allocation failed.
#[derive(Clone, Copy, Debug, PartialEq, Eq)]
pub enum Stop<R> {
    /// What was asked is refused.
    Refused(R),
    /// An allocation failed.
    NoMemory,
}

/// Every error that [`NoMemory`] is made from says that an allocation failed.
impl<R, E: Drop> From<E> for Stop<R>
where
    NoMemory: From<E>,
{
    ghost use Rattle.std.specs.Prelude.{◌≡◌};
    ghost use Rattle.p9_base.specs.declared.stop.Stop.TheVariants.{NoMemory as OutOfMemory};

    ghost from_gives = { λ _ stop. stop ≡ OutOfMemory };

    fn from(_error: E) -> Stop<R> {
        Stop::NoMemory
    }
}
