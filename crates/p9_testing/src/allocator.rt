//! The allocator that refuses a request.

ghost use Rattle.std.specs.Prelude.{◌≡◌};

use crate::count::Requests;
use std::alloc::{AllocError, Allocator};
use std::cell::Cell;

/// An allocator over another one, which refuses one request when it is told to, and counts them.
/// A reference to it is an allocator that can be copied.
///
/// What it counts is in a cell, of which no clause can speak: which request is refused, and
/// what `requests` and `has_refused` answer, is tested. That a block which it hands out is one of
/// the inner allocator's, and goes back to it, is proved.
#[derive(Drop)]
pub struct Refusing<B: Allocator> {
    inner: B,
    requests: Cell<Requests>,
}

impl<B: Allocator> Refusing<B> {
    ghost use Rattle.p9_testing.specs.Allocator.{inner_of};

    /// An allocator that refuses nothing yet, and hands out the memory of `inner`.
    pub fn new(inner: B) -> Refusing<B>
        ensures { inner_of result ≡ inner }
    {
        Refusing {
            inner,
            requests: Cell::new(Requests::new()),
        }
    }

    /// Refuses the `n`-th request from now on, once: 1 is the next one, and 0 is none. The request
    /// that was named before is refused no more.
    pub fn refuse(&self, n: u64) {
        self.requests.set(self.requests.get().refusing(n));
    }

    /// How many requests were made so far, the refused ones among them. Memory that is given back
    /// is no request; a block that grows or shrinks is one.
    pub fn requests(&self) -> u64 {
        self.requests.get().made
    }

    /// Whether the request that `refuse` named last was made, and so was refused.
    pub fn has_refused(&self) -> bool {
        self.requests.get().has_refused()
    }
}

/// Counts a request, and says whether it is refused.
fn refuses(requests: &Cell<Requests>) -> bool {
    let counted = requests.get().after_request();
    requests.set(counted);
    counted.is_refused()
}

unsafe impl<B: Allocator> Allocator for Refusing<B> {
    ghost use Rattle.p9_testing.specs.Allocator.{inner_of};

    ghost dealloc_token = { λ refusing. B.dealloc_token (inner_of refusing) };

    fn allocate(&self, size: usize, align: usize) -> Result<*mut u8, AllocError> {
        if refuses(&self.requests) {
            return Err(AllocError);
        }
        self.inner.allocate(size, align)
    }

    unsafe fn deallocate(&self, ptr: *mut u8, size: usize, align: usize) {
        self.inner.deallocate(ptr, size, align);
    }
}
