//! A value run again and again, each time with the next of its requests refused.

ghost use Rattle.std.specs.Prelude.{◌+◌};
ghost use Rattle.p9_testing.specs.Turns.{TakesTurns};

use crate::allocator::Refusing;
use std::alloc::Allocator;

/// Makes a value and runs it with the run's first request refused, then a new value with the
/// second one refused, and so on, until a run meets no refusal. Returns how many runs met one.
///
/// `make` is called while nothing is refused, and nothing is refused afterwards. A run that asks
/// for memory without end is the caller's to bound.
pub fn refuse_each<B, V, M, R>(memory: &Refusing<B>, mut make: M, mut run: R) -> u64
where
    B: Allocator,
    M: FnMut() -> V,
    R: FnMut(V),
    requires make_is_callable { M.IsAlwaysCallable make }
    requires run_is_callable { R.IsAlwaysCallable run }
    ensures { (made : M) × (ran : R) × TakesTurns M.step R.step make made run ran (result + 1) }
{
    let mut refusals = 0;
    for n in 1..u64::MAX {
        refusals = n - 1;
        let value = make();
        memory.refuse(n);
        run(value);
        if !memory.has_refused() {
            break;
        }
    }
    memory.refuse(0);
    refusals
}
