//! Work over both kinds of tree. Each kind is named here once for each allocator, as naming one costs
//! a proof much.

use crate::export::exchange::room;
use crate::export::nsfile::{Given, make_given, run};
use crate::export::sent_again::{Play, play_again, ready};
use p9_export::Export;
use p9_index::IndexTree;
use p9_testing::Refusing;
use p9_tree::{PlainTree, Tree};
use std::alloc::Global;
use std::process::Abort;

/// What is done with each request for memory refused in turn.
#[derive(Clone, Copy)]
pub enum Trial<'a> {
    Play(Play<'a>),
    File,
}

/// How many requests for memory there are over each kind of tree.
pub fn refusals(rt: &impl Abort, alloc: Global, trial: Trial<'_>) -> (u64, u64) {
    let mut room = room(rt, alloc);
    let refusals = refusals_in(rt, alloc, trial, room.as_mut_slice());
    drop(room);
    refusals
}

// How many there are over each kind of tree, with room for replies.
fn refusals_in(rt: &impl Abort, alloc: Global, trial: Trial<'_>, reply: &mut [u8]) -> (u64, u64) {
    let memory = Refusing::new(alloc);
    let lent = &memory;
    let plain = refusals_over::<PlainTree<&Refusing<Global>>>(rt, alloc, lent, lent, trial, reply);
    let index = refusals_over::<IndexTree<&Refusing<Global>>>(rt, alloc, lent, lent, trial, reply);
    (plain, index)
}

// How many there are over one kind of tree, in the memory that refuses.
fn refusals_over<T: Tree>(
    rt: &impl Abort,
    alloc: Global,
    memory: &Refusing<Global>,
    lent: T::Alloc,
    trial: Trial<'_>,
    reply: &mut [u8],
) -> u64 {
    let mut refusals = 0;
    for n in 1..u64::MAX {
        refusals = n - 1;
        if !is_refused::<T>(rt, alloc, memory, lent, trial, n, reply) {
            break;
        }
    }
    memory.refuse(0);
    refusals
}

// Tries it with this request for memory refused. Whether there was one.
fn is_refused<T: Tree>(
    rt: &impl Abort,
    alloc: Global,
    memory: &Refusing<Global>,
    lent: T::Alloc,
    trial: Trial<'_>,
    n: u64,
    reply: &mut [u8],
) -> bool {
    let mut made = make::<T>(rt, alloc, lent, trial, reply);
    memory.refuse(n);
    try_once(rt, alloc, &mut made, trial, reply);
    drop(made);
    memory.has_refused()
}

// What is made before memory is refused.
#[derive(Drop)]
enum Made<T: Tree> {
    Export(Export<T>),
    Given(Given<T>),
}

// Makes it.
fn make<T: Tree>(
    rt: &impl Abort,
    alloc: Global,
    lent: T::Alloc,
    trial: Trial<'_>,
    reply: &mut [u8],
) -> Made<T> {
    match trial {
        Trial::Play(play) => Made::Export(ready(rt, alloc, lent, play, reply)),
        Trial::File => Made::Given(make_given(rt, lent)),
    }
}

// Does once with it what is tried.
fn try_once<T: Tree>(
    rt: &impl Abort,
    alloc: Global,
    made: &mut Made<T>,
    trial: Trial<'_>,
    reply: &mut [u8],
) {
    match made {
        Made::Export(export) => play_again(rt, alloc, export, play_of(rt, trial), reply),
        Made::Given(given) => run(rt, given),
    }
}

// What is played with an exporter.
fn play_of<'a>(rt: &impl Abort, trial: Trial<'a>) -> Play<'a> {
    match trial {
        Trial::Play(play) => play,
        Trial::File => panic!(rt; "no play"),
    }
}
