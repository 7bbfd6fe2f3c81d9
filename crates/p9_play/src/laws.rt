//! What a play text does not depend on, of definitions alone. The function does nothing: its clause is
//! the law.

ghost use Rattle.p9_play.specs.Laws.{AlikeWorldsPlayAlike};

/// Two inputs with the same mount table, certificate and script, whose worlds differ only inside
/// hidden directories, print the same play text, if the same requests fail for memory. The
/// certificate has no gap over the first world, which is well-formed.
pub fn alike_worlds_play_alike()
    ensures { AlikeWorldsPlayAlike }
{}
