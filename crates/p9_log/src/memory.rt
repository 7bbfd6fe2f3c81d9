//! A device in memory. It shows that the contract of a device can be met, and serves tests.

ghost use Rattle.std.specs.Prelude.{◌≡◌, ◌≤◌, ◌⊎◌, [], ◌∷◌, ◌++◌, IfOk, OnErr, OnOk, drop, length};
ghost use Rattle.std.proofs.Common.{inl};
ghost use Rattle.p9_log.specs.Device.{Holds};
ghost use Rattle.p9_log.specs.Past.{HadBeen, only_bytes};

use crate::device::{Device, DeviceError};
use std::alloc::{AllocError, Allocator};

/// A file in memory, on which each call is done at once and whole, so that a crash leaves what is
/// there. For its contract it keeps each content that it had.
#[derive(Drop)]
pub struct MemoryDevice<A: Allocator> {
    alloc: A,
    bytes: Vec<u8, A>,
    past: Vec<Vec<u8, A>, A>,
    draft: Vec<u8, A>,
}

impl<A: Allocator + Copy> MemoryDevice<A> {
    ghost use Rattle.p9_log.specs.Memory.{memory_bytes};

    /// A file with these bytes.
    pub fn new(alloc: A, bytes: Vec<u8, A>) -> MemoryDevice<A>
        ensures { memory_bytes result ≡ bytes.items }
    {
        MemoryDevice {
            alloc,
            bytes,
            past: Vec::new(alloc),
            draft: Vec::new(alloc),
        }
    }

    pub fn bytes(&self) -> &[u8]
        ensures { result.now ≡ memory_bytes self.now }
    {
        &self.bytes
    }
}

// Puts other bytes in the place of those that are there, which it keeps.
fn replace<A: Allocator + Copy>(
    alloc: A,
    bytes: &mut Vec<u8, A>,
    past: &mut Vec<Vec<u8, A>, A>,
    next: Vec<u8, A>,
) -> Result<(), AllocError>
    ensures ok { OnOk result (bytes.new.items ≡ next.items) }
    ensures err { OnErr result (bytes.new.items ≡ bytes.old.items) }
    ensures past { OnOk result ((v : _) × (v.items ≡ bytes.old.items)
        × (past.new.items ≡ past.old.items ++ v ∷ [])) }
    ensures past_err { OnErr result (past.new.items ≡ past.old.items) }
{
    past.push(bytes.to_vec(alloc)?)?;
    *bytes = next;
    Ok(())
}

// The bytes of a file with others written over them, from this offset on.
fn written_over<A: Allocator + Copy>(
    alloc: A,
    file: &[u8],
    at: usize,
    bytes: &[u8],
) -> Result<Vec<u8, A>, AllocError>
    requires { at ≤ length file.now }
    ensures { IfOk result (λ next. Holds file.now at bytes.now next.items) }
{
    let mut next = file[..at].to_vec(alloc)?;
    next.extend_from_slice(bytes)?;
    if bytes.len() < file.len() - at {
        next.extend_from_slice(&file[at + bytes.len()..])?;
    }
    Ok(next)
}

impl<A: Allocator + Copy> Device for MemoryDevice<A> {
    ghost seen = { λ m. m.bytes.items };

    ghost drafted = { λ m. m.draft.items };

    ghost may_leave = { λ m how c. c ≡ m.bytes.items };

    ghost moment = { λ m. length m.past.items };

    ghost left_since = { λ m how t c. (c ≡ m.bytes.items) ⊎ HadBeen (drop t m.past.items) c };

    ghost faults = { λ m. 0 };

    ghost alive = { λ m c now. now };

    ghost counts_now = { λ m how t c le now. inl now };

    ghost only_now = { λ m how c left. only_bytes m.past.items m.bytes.items c left };

    fn read<B: Allocator>(&mut self, alloc: B) -> Result<Vec<u8, B>, DeviceError> {
        Ok(self.bytes.to_vec(alloc)?)
    }

    fn write_at(&mut self, at: usize, bytes: &[u8]) -> Result<(), DeviceError> {
        let next = written_over(self.alloc, &self.bytes, at, bytes)?;
        Ok(replace(self.alloc, &mut self.bytes, &mut self.past, next)?)
    }

    fn cut(&mut self, len: usize) -> Result<(), DeviceError> {
        let next = self.bytes[..len].to_vec(self.alloc)?;
        Ok(replace(self.alloc, &mut self.bytes, &mut self.past, next)?)
    }

    fn sync(&mut self) -> Result<(), DeviceError> {
        Ok(())
    }

    fn begin_draft(&mut self) -> Result<(), DeviceError> {
        self.draft.clear();
        Ok(())
    }

    fn add_to_draft(&mut self, bytes: &[u8]) -> Result<(), DeviceError> {
        Ok(self.draft.extend_from_slice(bytes)?)
    }

    fn put_draft(&mut self) -> Result<(), DeviceError> {
        let next = self.draft.to_vec(self.alloc)?;
        Ok(replace(self.alloc, &mut self.bytes, &mut self.past, next)?)
    }
}
