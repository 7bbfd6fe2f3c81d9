//! What is wished of a sealed input.

ghost use Rattle.std.specs.Prelude.{◌≡◌, IfOk, IsTrue, None};
ghost use Rattle.p9_cert.specs.Policy.{policy_of};
ghost use Rattle.p9_cert.specs.Rows.{is_row};
ghost use Rattle.p9_fixed.specs.Fixed.{IsFixed};
ghost use Rattle.p9_seal.specs.Error.{change_against};

use p9_base::NoMemory;
use p9_cert::Certificate;
use p9_fixed::{Change, first_change};
use p9_prepared::NameSpace;
use p9_tree::Tree;

/// What is wished of a sealed input. The default is neither.
#[derive(Clone, Copy, Debug, Default, PartialEq, Eq)]
pub struct Wishes {
    /// That an input is sealed also where a yes says little.
    pub anyway: bool,
    /// That an input is sealed only if its name space is fixed: no listed user can change anything
    /// that listed users come to, as [`first_change`] has it.
    pub fixed: bool,
}

/// The first node that some listed user can change, where a fixed name space is wished.
pub(crate) fn change_against<T: Tree>(
    alloc: T::Alloc,
    fixed: bool,
    space: &NameSpace<T>,
    certificate: &Certificate<T::Alloc>,
) -> Result<Option<Change>, NoMemory>
    ensures change { IfOk result (λ found.
        found ≡ change_against fixed space.now certificate.now) }
    ensures fixed { IfOk result (λ found. found ≡ None → IsTrue fixed
        → IsFixed (policy_of space.now.world) space.now.world.forest space.now.table
        (is_row certificate.now)) }
{
    if fixed {
        first_change(alloc, &space.world, &space.table, certificate)
    } else {
        Ok(None)
    }
}
