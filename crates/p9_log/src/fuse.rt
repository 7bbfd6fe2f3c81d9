//! A device that fails from one call on, for tests.

ghost use Rattle.std.specs.Prelude.{◌≡◌, ◌+◌, ◌<◌, IsErrOf, OnErr, OnOk, length};

use crate::device::{Device, DeviceError};
use std::alloc::Allocator;

/// A device that passes so many calls on, and fails each one after. The first write that fails is cut
/// short: so many of its bytes are written, or added to the draft.
#[derive(Drop)]
pub struct Fuse<D: Device, A: Allocator> {
    device: D,
    calls: usize,
    short: usize,
    // one for each call that failed
    failures: Vec<u8, A>,
}

impl<D: Device, A: Allocator> Fuse<D, A> {
    /// A device over this one that fails after so many calls.
    pub fn new(alloc: A, device: D, calls: usize, short: usize) -> Fuse<D, A>
        ensures { result.device ≡ device }
    {
        Fuse {
            device,
            calls,
            short,
            failures: Vec::new(alloc),
        }
    }

    /// The device below.
    pub fn into_device(self) -> D
        ensures { result ≡ self.device }
    {
        self.device
    }
}

// Counts a call, and fails where none is left.
fn spend<A: Allocator>(calls: &mut usize, failures: &mut Vec<u8, A>) -> Result<(), DeviceError>
    ensures ok { OnOk result (failures.new.items ≡ failures.old.items) }
    ensures failed { IsErrOf result DeviceError.Failed
        → length failures.old.items < length failures.new.items }
    ensures memory { IsErrOf result DeviceError.Memory → failures.new.items ≡ failures.old.items }
{
    if *calls > 0 {
        *calls -= 1;
        return Ok(());
    }
    failures.push(0)?;
    Err(DeviceError::Failed)
}

impl<D: Device, A: Allocator> Device for Fuse<D, A> {
    ghost seen = { λ f. D.Device.seen f.device };

    ghost drafted = { λ f. D.Device.drafted f.device };

    ghost may_leave = { λ f. D.Device.may_leave f.device };

    ghost moment = { λ f. D.Device.moment f.device };

    ghost left_since = { λ f. D.Device.left_since f.device };

    ghost faults = { λ f. D.Device.faults f.device + length f.failures.items };

    ghost alive = { λ f. D.Device.alive f.device };

    ghost counts_now = { λ f. D.Device.counts_now f.device };

    ghost only_now = { λ f. D.Device.only_now f.device };

    fn read<B: Allocator>(&mut self, alloc: B) -> Result<Vec<u8, B>, DeviceError> {
        spend(&mut self.calls, &mut self.failures)?;
        self.device.read(alloc)
    }

    fn write_at(&mut self, at: usize, bytes: &[u8]) -> Result<(), DeviceError> {
        match spend(&mut self.calls, &mut self.failures) {
            Ok(()) => self.device.write_at(at, bytes),
            Err(error) => {
                let written = self.short.min(bytes.len());
                self.short = 0;
                let _ = self.device.write_at(at, &bytes[..written]);
                Err(error)
            }
        }
    }

    fn cut(&mut self, len: usize) -> Result<(), DeviceError> {
        spend(&mut self.calls, &mut self.failures)?;
        self.device.cut(len)
    }

    fn sync(&mut self) -> Result<(), DeviceError> {
        spend(&mut self.calls, &mut self.failures)?;
        self.device.sync()
    }

    fn begin_draft(&mut self) -> Result<(), DeviceError> {
        spend(&mut self.calls, &mut self.failures)?;
        self.device.begin_draft()
    }

    fn add_to_draft(&mut self, bytes: &[u8]) -> Result<(), DeviceError> {
        match spend(&mut self.calls, &mut self.failures) {
            Ok(()) => self.device.add_to_draft(bytes),
            Err(error) => {
                let added = self.short.min(bytes.len());
                self.short = 0;
                let _ = self.device.add_to_draft(&bytes[..added]);
                Err(error)
            }
        }
    }

    fn put_draft(&mut self) -> Result<(), DeviceError> {
        spend(&mut self.calls, &mut self.failures)?;
        self.device.put_draft()
    }
}
