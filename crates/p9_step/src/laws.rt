//! What follows from the step alone. Each function does nothing: its clauses are the laws.

ghost use Rattle.p9_step.specs.Laws.{EveryFrameIsAnswered, RunGoesOn, RunKeepsState};
ghost use Rattle.p9_step.specs.Laws.{StepKeepsState};

/// A step of a state that the exporter can come to leads to such a state, whether or not an
/// allocation failed.
pub fn a_step_keeps_the_state()
    ensures { StepKeepsState }
{}

/// So does a run.
pub fn a_run_keeps_the_state()
    ensures { RunKeepsState }
{}

/// A run of events that are followed by others is the run of the first, and then that of the
/// others: it leads to the same state, and the replies are the same.
pub fn a_run_goes_on()
    ensures { RunGoesOn }
{}

/// Every frame of an open session gets one reply. Its bytes spell a message with the frame's tag,
/// and are no more than the session's msize, and before a version than 43. A refusal is one of the
/// thirty faults, and the state is unchanged, but that a refused remove has ended its fid. It is
/// 'out of memory' only for a walk, a create, a write or a wstat that nothing else refuses, or for
/// an attach that no test refuses that looks at no file, and only where the step's mark says that
/// an allocation failed.
pub fn every_frame_is_answered()
    ensures { EveryFrameIsAnswered }
{}
