//! What one server may do, its twin may do: they have the same connections, and their guards are
//! alike, of which the first is guarded.

ghost use Rattle.p9_serve_laws.specs.Twins.{AlikeGuardsMayBeServedTheSame, TwinsMayEndTheSame};
ghost use Rattle.p9_serve_laws.specs.Twins.{TwinsMayHaveTheSameRound, TwinsMayHaveTheSameRounds};
ghost use Rattle.p9_serve_laws.specs.Twins.{TwinsMayPassTheSameMoments};

/// Moments that may lead from a server on may lead from its twin on, to twins again. So both may
/// give the same replies, and read and write the same bytes, in the same order among all
/// connections.
pub fn twins_may_pass_the_same_moments<S>()
    ensures { TwinsMayPassTheSameMoments S }
{}

/// A round of a server may be a round of its twin, at the same reading of the clock, and leads to
/// twins again: the same clients are taken in, the same connections move and close, with the same
/// bytes in all buffers, and the same comes of when to accept and rest.
pub fn twins_may_have_the_same_round<S>()
    ensures { TwinsMayHaveTheSameRound S }
{}

/// So may rounds one after another.
pub fn twins_may_have_the_same_rounds<S>()
    ensures { TwinsMayHaveTheSameRounds S }
{}

/// The end of all sessions of a server may be that of its twin. The guards that are left are alike.
pub fn twins_may_end_the_same<S>()
    ensures { TwinsMayEndTheSame S }
{}

/// A guard that was served for some rounds may be served so in any alike state, with the same
/// readings of the clock. The guards that are left are alike.
pub fn alike_guards_may_be_served_the_same<S>()
    ensures { AlikeGuardsMayBeServedTheSame S }
{}
