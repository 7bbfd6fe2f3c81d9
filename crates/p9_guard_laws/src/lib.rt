//! The laws of a guarded state: nothing inside a hidden directory decides a byte of a reply, and
//! nothing there changes, where the state's certificate is closed. Each function does nothing: its
//! clauses are the laws.
#![tactic(auto)]

ghost use Rattle.p9_guard_laws.specs.Laws.{AlikeClosed, AlikeGuarded, AlikeRun, AlikeStep};
ghost use Rattle.p9_guard_laws.specs.Laws.{AlikeVerified, CertifiedIsGuarded};

/// A well-formed state without sessions that has a closed certificate is guarded by it, if each
/// hidden number was given to a node.
pub fn a_certified_state_is_guarded()
    ensures { CertifiedIsGuarded }
{}

/// A step of two alike states of which the first is guarded gives the same bytes, and leads to
/// alike states, of which the first is guarded; inside its hidden directories nothing changes. It
/// is the same event in both, and an allocation fails in both or in neither.
pub fn alike_states_step_alike()
    ensures { AlikeStep }
{}

/// So does a run, of any events with any marks.
pub fn alike_states_run_alike()
    ensures { AlikeRun }
{}

/// A state that is alike to a guarded one is guarded too.
pub fn an_alike_state_is_guarded()
    ensures { AlikeGuarded }
{}

/// A certificate is closed for both of two alike worlds, or for neither. The first is well-formed,
/// and each hidden number was given to a node.
pub fn alike_worlds_are_certified_alike()
    ensures { AlikeClosed }
{}

/// A certificate is verified over both of two such worlds, or over neither.
pub fn alike_worlds_are_verified_alike()
    ensures { AlikeVerified }
{}
