//! What comes from outside decides what two servers do, side by side: they have the same
//! connections, but for the streams, and their guards are alike, of which the first is guarded.

ghost use Rattle.p9_serve_laws.specs.Decided.{ChoosersAreServedTheSame, ChoosersSeeTheSameMoments};
ghost use Rattle.p9_serve_laws.specs.Decided.{ChoosersSeeTheSameRounds, TheOutsideDecidesMoments};
ghost use Rattle.p9_serve_laws.specs.Decided.{TheOutsideDecidesRounds, TheOutsideDecidesTheEnd};
ghost use Rattle.p9_serve_laws.specs.Decided.{TheOutsideDecidesTurns};

/// Where the same comes from outside in two lists of moments, they are the same list. So both have
/// the same replies, and the same bytes read and written, in the same order among all connections,
/// and lead to servers side by side again.
pub fn the_outside_decides_moments<S, T>()
    ensures { TheOutsideDecidesMoments S T }
{}

/// What comes from outside may be chosen by all that happened so far, as clients choose what they
/// send by what they were answered. Where one chooser chose it for two lists of moments, they are
/// the same list, as far as both go.
pub fn choosers_see_the_same_moments<S, T>()
    ensures { ChoosersSeeTheSameMoments S T }
{}

/// Where the same comes from outside in two calls of
/// [`Clients::turns`](p9_serve::Clients::turns), each of which gives every connection a turn, the
/// turns are the same. Which connections have turns, and in which order, does not come from outside
/// here.
pub fn the_outside_decides_turns<S, T>()
    ensures { TheOutsideDecidesTurns S T }
{}

/// Where the same comes from outside in rounds, they are the same. So both servers answer the same
/// in the same rounds, accept in the same rounds, and rest as long before each.
pub fn the_outside_decides_rounds<S, T>()
    ensures { TheOutsideDecidesRounds S T }
{}

/// So are as many rounds where one chooser chose what came from outside.
pub fn choosers_see_the_same_rounds<S, T>()
    ensures { ChoosersSeeTheSameRounds S T }
{}

/// The end of all sessions, at the same reading of the clock, leaves alike guards.
pub fn the_outside_decides_the_end<S, T>()
    ensures { TheOutsideDecidesTheEnd S T }
{}

/// Two guards in alike states were served as many rounds, where one chooser chose what came from
/// outside. Then they were served the same, from a new server over each to the end of all sessions,
/// and the guards that are left are alike.
pub fn choosers_are_served_the_same<S, T>()
    ensures { ChoosersAreServedTheSame S T }
{}
