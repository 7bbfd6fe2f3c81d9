//! The theorem, and the laws that it rests on, of definitions alone. Each function does nothing: its
//! clauses are the laws.

ghost use Rattle.p9_guard.specs.Sentence.{EveryRunIsPromised, PromisesJoin};

pub use p9_guard_laws::{
    a_certified_state_is_guarded, alike_states_run_alike, alike_states_step_alike,
    alike_worlds_are_certified_alike, alike_worlds_are_verified_alike, an_alike_state_is_guarded,
};

/// The theorem. Where [`verify`](p9_cert::verify) finds no gap in a certificate, over a well-formed
/// world with its users and groups and over a mount table, every list of events that can happen is
/// promised, from the state without sessions on, whatever allocations fail in it: nothing inside a
/// hidden directory changes, and no byte of a reply depends on what is there.
///
/// A guard that [`Guard::new`](crate::Guard::new) makes begins in that state, and
/// [`Guard::run`](crate::Guard::run) makes such a list of events of it.
pub fn every_run_is_promised()
    ensures { EveryRunIsPromised }
{}

/// What is promised of a list of events, and of a list of events that follow them, is promised of
/// both lists together.
pub fn promises_join()
    ensures { PromisesJoin }
{}
