//! Work over devices in memory. Their type is named here once, as naming it costs a proof much.

use crate::log::failing::{Trial, fail_each_call};
use crate::log::logs::InMemory;
use crate::log::told::plays_all;
use p9_log::MemoryDevice;
use std::alloc::Global;
use std::process::Abort;

/// What is done.
#[derive(Clone, Copy)]
pub(crate) enum Work {
    /// Logs do as they are told.
    Tell,
    /// Each call of the device fails in turn.
    Fail(Trial),
}

/// Does the work over devices in memory.
pub(crate) fn in_memory(rt: &impl Abort, alloc: Global, work: Work) {
    over::<MemoryDevice<Global>>(rt, alloc, work);
}

// Does the work over devices of a kind.
fn over<D: InMemory>(rt: &impl Abort, alloc: Global, work: Work) {
    match work {
        Work::Tell => plays_all::<D>(rt, alloc),
        Work::Fail(trial) => fail_each_call::<D>(rt, alloc, trial),
    }
}
