//! Why an input is not sealed.

ghost use Rattle.std.specs.Prelude.{◌≡◌};
ghost use Rattle.p9_seal.specs.Error.{vacuity_against, vacuity_of};

use p9_base::NoMemory;
use p9_fixed::Change;
use p9_judge::Breach;
use p9_nsfile::OpFault;
use p9_prepared::{NameSpace, Refusal, Stop};
use p9_tree::Tree;
use std::alloc::{AllocError, Allocator};

/// Why a yes would say little. Where several apply, it is the one that is first here.
#[derive(Clone, Copy, Debug, PartialEq, Eq)]
pub enum Vacuity {
    /// An operation of the namespace file failed, and this is the first: its line in that section,
    /// from 1, and why it did nothing.
    FailedOperation { line: u64, fault: OpFault },
    /// No directory is hidden.
    NothingHidden,
    /// No user is listed, so no client may attach.
    NoUsers,
}

/// The first reason why a yes over this name space would say little, unless it is wanted anyway.
pub(crate) fn vacuity_against<T: Tree>(anyway: bool, space: &NameSpace<T>) -> Option<Vacuity>
    ensures { result ≡ vacuity_against anyway space.now }
{
    if anyway { None } else { vacuity_of(space) }
}

// The first reason why a yes over this name space would say little.
fn vacuity_of<T: Tree>(space: &NameSpace<T>) -> Option<Vacuity>
    ensures { result ≡ vacuity_of space.now }
{
    if let Some((line, fault)) = space.reports.first() {
        return Some(Vacuity::FailedOperation {
            line: *line,
            fault: *fault,
        });
    }
    if space.world.hidden.is_empty() {
        return Some(Vacuity::NothingHidden);
    }
    if space.world.users.is_empty() {
        return Some(Vacuity::NoUsers);
    }
    None
}

/// Why an input is not sealed.
#[derive(Drop)]
pub enum SealError<A: Allocator> {
    /// The input has nothing but blanks, tabs and newlines.
    Empty,
    /// The input has a fault, and this is the first.
    Refused(Refusal),
    /// What is hidden is within reach, and this is a way to it.
    No(Breach<A>),
    /// What is hidden is out of reach, but that says little.
    Vacuous(Vacuity),
    /// A fixed name space is wished, and this is the first node that some listed user can change.
    Changeable(Change),
    /// An allocation failed.
    NoMemory,
}

impl Vacuity {
    // What would be sealed.
    fn text<A: Allocator + Copy>(self, alloc: A) -> Result<String<A>, AllocError> {
        match self {
            Vacuity::FailedOperation { line, fault } => format!(in alloc; "ns:{line}: {fault}"),
            Vacuity::NothingHidden => String::from_str(alloc, "nothing is hidden"),
            Vacuity::NoUsers => String::from_str(alloc, "no user is listed"),
        }
    }
}

impl<A: Allocator + Copy> SealError<A> {
    /// The line that reports it, without a newline. A fault of the input is reported as
    /// [`Refusal::text`] says. The only error is that an allocation fails, or failed.
    pub fn text(&self, alloc: A) -> Result<String<A>, AllocError> {
        match self {
            SealError::Empty => String::from_str(
                alloc,
                "not sealed: the input is empty, which is the sample world of p9",
            ),
            SealError::Refused(refusal) => refusal.text(alloc),
            SealError::No(_) => String::from_str(
                alloc,
                "not sealed: what is hidden is within reach",
            ),
            SealError::Vacuous(vacuity) => {
                let why = vacuity.text(alloc)?;
                format!(in alloc; "not sealed: {why} (--anyway seals it)")
            }
            SealError::Changeable(_) => String::from_str(
                alloc,
                "not sealed: listed users can change what they reach",
            ),
            SealError::NoMemory => Err(AllocError),
        }
    }
}

impl<A: Allocator> From<Stop> for SealError<A> {
    ghost use Rattle.std.specs.Prelude.{◌≡◌};
    ghost use Rattle.p9_seal.specs.Error.{error_of_stop};

    ghost from_gives = { λ stop error. error ≡ error_of_stop stop };

    fn from(stop: Stop) -> SealError<A> {
        match stop {
            Stop::Refused(refusal) => SealError::Refused(refusal),
            Stop::NoMemory => SealError::NoMemory,
        }
    }
}

impl<A: Allocator> From<NoMemory> for SealError<A> {
    ghost use Rattle.std.specs.Prelude.{◌≡◌};
    ghost use Rattle.p9_seal.specs.declared.error.SealError.TheVariants.{NoMemory};

    ghost from_gives = { λ _ error. error ≡ NoMemory };

    fn from(_error: NoMemory) -> SealError<A> {
        SealError::NoMemory
    }
}
