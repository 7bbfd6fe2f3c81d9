//! Why a call of a log failed.

ghost use Rattle.std.specs.Prelude.{◌≡◌};
ghost use Rattle.p9_log.specs.declared.error.LogError.TheVariants.{Memory, Device};

use crate::device::DeviceError;
use std::alloc::{AllocError, AllocFailed};
use thiserror::Error;

/// Why a call of a log failed.
#[derive(Clone, Copy, Debug, PartialEq, Eq, Error)]
pub enum LogError {
    /// An allocation failed, and nothing has changed.
    #[error("out of memory")]
    Memory,
    /// The log, or its draft, would be longer than 2^60 bytes. Nothing has changed.
    #[error("the log is full")]
    Full,
    /// A call of the device for the file failed before, and nothing has changed.
    #[error("the log has failed before")]
    Ended,
    /// No draft is open, and nothing has changed.
    #[error("no draft is open")]
    NoDraft,
    /// A call of the device failed. The log refuses all from then on, if the call was for the file.
    #[error("{0}")]
    Device(DeviceError),
}

impl From<AllocError> for LogError {
    ghost from_gives = { λ _ e. e ≡ Memory };

    fn from(_error: AllocError) -> LogError {
        LogError::Memory
    }
}

impl<T: Drop> From<AllocFailed<T>> for LogError {
    ghost from_gives = { λ _ e. e ≡ Memory };

    fn from(_error: AllocFailed<T>) -> LogError {
        LogError::Memory
    }
}

impl From<DeviceError> for LogError {
    ghost from_gives = { λ error e. e ≡ Device error };

    fn from(error: DeviceError) -> LogError {
        LogError::Device(error)
    }
}
