//! The script of an input, played over its name space.

ghost use Rattle.std.specs.Prelude.{◌≡◌, IfErr, None, OnOk};
ghost use Rattle.p9_play.specs.Guards.{exported};
ghost use Rattle.p9_play.specs.Play.{PlaysAll};
ghost use Rattle.p9_play.specs.Script.{IsUnplayed};
ghost use Rattle.p9_prepared.specs.Prepared.{gap_in};

use crate::guards::{export, guard_over};
use crate::play::play_events;
use p9_prepared::{Prepared, Stop};
use p9_tree::Tree;

/// Plays the script of a prepared input over its name space, and appends the play text to `out`: for each
/// request a line, its reply in lower case hexadecimal, and for each event that doesn't fit the line
/// `skip`.
///
/// It is played on the [`Guard`](p9_guard::Guard) that the certificate gives, and on an
/// [`Export`](p9_export::Export) where the input has no certificate. A certificate with a gap is
/// [`Refusal::Unverified`](p9_prepared::Refusal::Unverified), and `out` is unchanged then. Where an
/// allocation fails, the error is [`Stop::NoMemory`], and a part of the text may be there.
pub fn play_script<T: Tree>(prepared: Prepared<T>, out: &mut Vec<u8, T::Alloc>) -> Result<(), Stop>
    ensures verified { OnOk result (gap_in prepared ≡ None) }
    ensures text { OnOk result (PlaysAll prepared.events (exported prepared.space) out.old.items
        out.new.items) }
    ensures stop { IfErr result (IsUnplayed (gap_in prepared) out.old.items out.new.items) }
{
    let Prepared {
        space,
        certificate,
        events,
    } = prepared;
    let Some(certificate) = certificate else {
        let mut export = export(space);
        let played = play_events(&mut export, events.as_slice(), out);
        drop(export);
        drop(events);
        played?;
        return Ok(());
    };
    match guard_over(space, certificate) {
        Ok(mut guard) => {
            let played = play_events(&mut guard, events.as_slice(), out);
            drop(guard);
            drop(events);
            played?;
            Ok(())
        }
        Err(stop) => {
            drop(events);
            Err(stop)
        }
    }
}
