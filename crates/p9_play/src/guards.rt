//! What serves a name space: an exporter, or a guard over one.

ghost use Rattle.std.specs.Prelude.{◌≡◌, IfErr, IfOk, None, Ok, OnOk};
ghost use Rattle.p9_play.specs.Guards.{exported, guard_in, guard_over};
ghost use Rattle.p9_prepared.specs.NameSpace.{gap_over};
ghost use Rattle.p9_prepared.specs.Refusal.{IsStop, IsUnverified};

use p9_cert::Certificate;
use p9_export::Export;
use p9_guard::{Cause, Guard};
use p9_prepared::{NameSpace, Prepared, Refusal, Stop};
use p9_tree::Tree;
use p9_world::World;

/// The guard over the name space of an input by its certificate, without sessions: that which
/// [`Guard::new`] makes of the world, the mount table and the certificate.
///
/// An input without a certificate is [`Refusal::NoCertificate`], and a certificate with a gap is
/// [`Refusal::Unverified`]. Where an allocation fails, the error is [`Stop::NoMemory`].
pub fn guard_of<T: Tree>(prepared: Prepared<T>) -> Result<Guard<T>, Stop>
    ensures ok { IfOk result (λ guard. guard_in prepared ≡ Ok guard) }
    ensures stop { IfErr result (IsStop (guard_in prepared)) }
{
    let Prepared {
        space,
        certificate,
        events: _,
    } = prepared;
    match certificate {
        Some(certificate) => guard_over(space, certificate),
        None => Err(Stop::Refused(Refusal::NoCertificate)),
    }
}

/// The guard over a name space by this certificate, without sessions. A gap is the refusal.
pub(crate) fn guard_over<T: Tree>(
    space: NameSpace<T>,
    certificate: Certificate<T::Alloc>,
) -> Result<Guard<T>, Stop>
    ensures ok { IfOk result (λ guard. guard ≡ guard_over space certificate) }
    ensures closed { OnOk result (gap_over space certificate ≡ None) }
    ensures stop { IfErr result (IsUnverified (gap_over space certificate)) }
{
    let NameSpace {
        world,
        table,
        reports: _,
    } = space;
    match Guard::new(world, table, certificate) {
        Ok(guard) => Ok(guard),
        Err((world, table, cause)) => {
            drop(world);
            drop(table);
            match cause {
                Cause::Gap(gap) => Err(Stop::Refused(Refusal::Unverified(gap))),
                Cause::NoMemory => Err(Stop::NoMemory),
            }
        }
    }
}

/// The exporter of a name space to the world's users and groups, without sessions. This takes no
/// memory.
pub(crate) fn export<T: Tree>(space: NameSpace<T>) -> Export<T>
    ensures { result ≡ exported space }
{
    let NameSpace {
        world,
        table,
        reports: _,
    } = space;
    let World {
        forest,
        users,
        groups,
        ..
    } = world;
    Export::new(forest, users, groups, table)
}
