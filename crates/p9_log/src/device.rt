//! A file as a log sees it: what a read returns, what a crash may leave, and a draft beside it.

ghost use Rattle.std.specs.Prelude.{◌≡◌, ◌≤◌, [], ◌++◌, IfOk, List, OnOk, length, take, ℕ};
ghost use Rattle.p9_log.specs.declared.crash.Crash.{Crash};
ghost use Rattle.p9_log.specs.declared.crash.Crash.TheVariants.{Killed, Stopped};
ghost use Rattle.p9_log.specs.declared.device.DeviceError.TheVariants.{Memory};
ghost use Rattle.p9_log.specs.Device.{HasCause, Holds, IsCut, IsPut, IsSame, IsWritten, Only, Passes};

use std::alloc::{AllocError, AllocFailed, Allocator};
use thiserror::Error;

/// Why a call of a device failed.
#[derive(Clone, Copy, Debug, PartialEq, Eq, Error)]
pub enum DeviceError {
    /// An allocation failed.
    #[error("out of memory")]
    Memory,
    /// The device failed.
    #[error("the device failed")]
    Failed,
}

impl From<AllocError> for DeviceError {
    ghost from_gives = { λ _ e. e ≡ Memory };

    fn from(_error: AllocError) -> DeviceError {
        DeviceError::Memory
    }
}

impl<T: Drop> From<AllocFailed<T>> for DeviceError {
    ghost from_gives = { λ _ e. e ≡ Memory };

    fn from(_error: AllocFailed<T>) -> DeviceError {
        DeviceError::Memory
    }
}

/// A file on a device that may fail, in a process that may be killed, on a machine that may stop.
///
/// The contract speaks of each moment, also of those within a call, by a clock that an
/// implementation keeps for it. Of a file after a failed call it says only what a crash may leave.
///
/// The draft is begun, added to and put by calls that follow one another: the other calls say nothing of
/// it.
pub trait Device: Sized + Drop {
    /// The bytes that a read returns.
    ghost seen: { Self → List ℕ };

    /// The bytes of the draft.
    ghost drafted: { Self → List ℕ };

    /// What a crash of this kind at this moment may leave.
    ghost may_leave: { Self → Crash → List ℕ → Type 0 };

    /// The moment, as a number that doesn't fall.
    ghost moment: { Self → ℕ };

    /// What a crash of this kind at some moment from that one on might have left, during a call or
    /// between two.
    ghost left_since: { Self → Crash → ℕ → List ℕ → Type 0 };

    /// How often the device has failed.
    ghost faults: { Self → ℕ };

    /// All the bytes. A crash meanwhile leaves what it might have left before.
    fn read<A: Allocator>(&mut self, alloc: A) -> Result<Vec<u8, A>, DeviceError>
        ensures bytes { IfOk result (λ bytes. bytes.items ≡ seen self.old) }
        ensures seen { seen self.new ≡ seen self.old }
        ensures crash { (how : Crash) → Passes moment may_leave left_since how IsSame self.old
            self.new }
        ensures cause { HasCause (faults self.old) (faults self.new) result };

    /// Writes over what is there, and past the end. Where the process is killed meanwhile, a front
    /// of the bytes is there. Until a sync, a machine that stops may leave any bytes in the range.
    fn write_at(&mut self, at: usize, bytes: &[u8]) -> Result<(), DeviceError>
        requires { at ≤ length (seen self.old) }
        ensures written { OnOk result (Holds (seen self.old) at bytes.now (seen self.new)) }
        ensures crash { (how : Crash) → Passes moment may_leave left_since how
            (IsWritten how at bytes.now) self.old self.new }
        ensures cause { HasCause (faults self.old) (faults self.new) result };

    /// Cuts the file to a length. Until a sync, a machine that stops may leave any length between.
    fn cut(&mut self, len: usize) -> Result<(), DeviceError>
        requires { len ≤ length (seen self.old) }
        ensures cut { OnOk result (seen self.new ≡ take len (seen self.old)) }
        ensures crash { (how : Crash) → Passes moment may_leave left_since how (IsCut how len)
            self.old self.new }
        ensures cause { HasCause (faults self.old) (faults self.new) result };

    /// After it, a machine that stops leaves what a read returns.
    fn sync(&mut self) -> Result<(), DeviceError>
        ensures durable { OnOk result (Only (seen self.old) (may_leave self.new Stopped)) }
        ensures seen { seen self.new ≡ seen self.old }
        ensures crash { (how : Crash) → Passes moment may_leave left_since how IsSame self.old
            self.new }
        ensures cause { HasCause (faults self.old) (faults self.new) result };

    /// Begins a draft without bytes, in the place of one that was begun before.
    fn begin_draft(&mut self) -> Result<(), DeviceError>
        ensures drafted { OnOk result (drafted self.new ≡ []) }
        ensures seen { seen self.new ≡ seen self.old }
        ensures crash { (how : Crash) → Passes moment may_leave left_since how IsSame self.old
            self.new }
        ensures cause { HasCause (faults self.old) (faults self.new) result };

    /// Adds bytes behind those of the draft.
    fn add_to_draft(&mut self, bytes: &[u8]) -> Result<(), DeviceError>
        ensures drafted { OnOk result (drafted self.new ≡ drafted self.old ++ bytes.now) }
        ensures seen { seen self.new ≡ seen self.old }
        ensures crash { (how : Crash) → Passes moment may_leave left_since how IsSame self.old
            self.new }
        ensures cause { HasCause (faults self.old) (faults self.new) result };

    /// Puts the draft in the place of the file, and syncs it. A crash meanwhile leaves the file as it
    /// was, or the draft, whole.
    fn put_draft(&mut self) -> Result<(), DeviceError>
        ensures put { OnOk result (seen self.new ≡ drafted self.old) }
        ensures durable { OnOk result (Only (drafted self.old) (may_leave self.new Stopped)) }
        ensures crash { (how : Crash) → Passes moment may_leave left_since how
            (IsPut (drafted self.old)) self.old self.new }
        ensures cause { HasCause (faults self.old) (faults self.new) result };

    /// Between two calls, a process that is killed leaves what a read returns.
    ghost alive: { (file : Self) → Only (seen file) (may_leave file Killed) };

    /// This moment is one of those since an earlier one.
    ghost counts_now: { (file : Self) (how : Crash) (t : ℕ) (c : List ℕ) → t ≤ moment file
        → may_leave file how c → left_since file how t c };

    /// Since this moment there is no other.
    ghost only_now: { (file : Self) (how : Crash) (c : List ℕ)
        → left_since file how (moment file) c → may_leave file how c };
}
