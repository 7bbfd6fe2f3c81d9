//! A stat by itself, as a directory's contents hold it.

ghost use Rattle.std.specs.Prelude.{◌≡◌, IfNone, IfSome};
ghost use Rattle.p9_wire.specs.Fields.{FitsStat, StatNumbersFit, stat_bytes};
ghost use Rattle.p9_wire.specs.Stat.{StatFields, stat_view};

use p9_fields::{Stat, take_stat};

/// The stat that all of these bytes are, its size among them, as a read of a directory returns it,
/// read(5). It is `None` where they are no stat.
pub fn read_stat(bytes: &[u8]) -> Option<Stat<'_>>
    ensures found { IfSome result (λ stat. stat_bytes (stat_view stat) ≡ bytes.now) }
    ensures none { IfNone result ((s : StatFields) → StatNumbersFit s → FitsStat s
        → stat_bytes s ≡ bytes.now → ⊥) }
{
    let (stat, rest) = take_stat(bytes)?;
    if rest.is_empty() { Some(stat) } else { None }
}
