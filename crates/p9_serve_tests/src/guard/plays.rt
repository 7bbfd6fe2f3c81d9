//! Scripts over guards, with each request for memory refused in turn. They are over a
//! heap that counts its bytes, and a guard that is dropped gives back all that it was lent.

use crate::guard::again::play_again;
use crate::guard::scripts::{SCRIPTS, Script};
use crate::guard::stops::run_refused;
use crate::guard::worlds::guard_of;
use linked_list_allocator::LocalHeap;
use p9_guard::Guard;
use p9_index::IndexTree;
use p9_testing::Refusing;
use p9_tree::Tree;
use std::alloc::{Allocator, Global};
use std::process::Abort;

// How a script is played.
#[derive(Clone, Copy, Debug, PartialEq, Eq)]
enum Play {
    // Its guard is made: what was refused is done again.
    Make,
    // Frame by frame: what was refused comes again.
    Again,
    // As a list of events: what comes after a refusal is as if the refused event had not come.
    List,
}

// Plays the script over a guard that was made. Returns whether a request for memory was refused.
fn play_on<T: Tree, B: Allocator>(
    rt: &impl Abort,
    alloc: Global,
    memory: &Refusing<B>,
    lent: T::Alloc,
    guard: &mut Guard<T>,
    script: &Script,
    play: Play,
) -> bool {
    match play {
        Play::List => return run_refused(rt, alloc, memory, lent, guard, script),
        Play::Again => play_again(rt, alloc, guard, script),
        Play::Make => (),
    }
    memory.has_refused()
}

// Plays the script with the n-th request for memory refused, over a tree of this kind. Returns
// whether one was.
fn is_refused<T: Tree, B: Allocator>(
    rt: &impl Abort,
    alloc: Global,
    memory: &Refusing<B>,
    lent: T::Alloc,
    script: &Script,
    play: Play,
    n: u64,
) -> bool {
    memory.refuse(if play == Play::Make { n } else { 0 });
    let mut guard = guard_of::<T>(rt, lent, &script.scene);
    if play != Play::Make {
        memory.refuse(n);
    }
    let was_refused = play_on(rt, alloc, memory, lent, &mut guard, script, play);
    drop(guard);
    was_refused
}

// The same, with each request refused in turn. There are more than so many, and all that was lent
// is given back each time.
fn is_played<T: Tree, B: Allocator>(
    rt: &impl Abort,
    alloc: Global,
    heap: &LocalHeap,
    memory: &Refusing<B>,
    lent: T::Alloc,
    script: &Script,
    play: Play,
) {
    let mut refusals = 0;
    for n in 1..u64::MAX {
        refusals = n - 1;
        let was_refused = is_refused::<T, B>(rt, alloc, memory, lent, script, play, n);
        assert!(rt; heap.used() == 0);
        if !was_refused {
            break;
        }
    }
    assert!(rt; refusals > if play == Play::Make { 20 } else { 4 });
}

// The same, over the tree that the program has.
fn is_played_in_index<B: Allocator>(
    rt: &impl Abort,
    alloc: Global,
    heap: &LocalHeap,
    memory: &Refusing<B>,
    script: &Script,
    play: Play,
) {
    is_played::<IndexTree<&Refusing<B>>, B>(rt, alloc, heap, memory, memory, script, play);
}

#[test]
fn a_guard_does_again_what_was_refused(rt: HostRuntime) {
    let heap = LocalHeap::new(rt.alloc(), 1 << 20).expect(&rt, "memory");
    for script in &SCRIPTS {
        for play in [Play::Make, Play::Again, Play::List] {
            let memory = Refusing::new(&heap);
            is_played_in_index(&rt, rt.alloc(), &heap, &memory, script, play);
        }
    }
}
