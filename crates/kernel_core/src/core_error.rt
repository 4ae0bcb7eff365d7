//! Why a call of the kernel does not succeed.
ghost use Rattle.std.specs.Prelude.{◌≡◌};
ghost use Rattle.kernel_core.specs.declared.core_error.Stop.TheVariants as stops;
ghost use Rattle.kernel_core.specs.declared.core_error.CoreError.TheVariants as errors;

use crate::error::Errno;
use std::alloc::{AllocError, AllocFailed};

/// There was not enough memory: the error of a call that fails for nothing else, which `?` makes of the
/// allocator's own errors and turns into a [`Stop`] or a [`CoreError`]. (The type is this project's own.)
#[derive(Clone, Copy, Debug, PartialEq, Eq)]
pub struct NoMemory;

/// What ends a call early, whatever it asks for.
#[derive(Clone, Copy, PartialEq, Eq)]
pub enum Stop {
    /// Memory ran out.
    NoMemory,
    /// The input failed, and counted it.
    ReadFault,
    /// An output failed, and counted it.
    WriteFault,
}

/// Why a call of the kernel does not succeed.
#[derive(Clone, Copy, PartialEq, Eq)]
pub enum CoreError {
    /// The call is refused with this error.
    Refused(Errno),
    /// The call ends early.
    Stop(Stop),
}

impl From<AllocError> for NoMemory {
    fn from(_error: AllocError) -> NoMemory {
        NoMemory
    }
}

impl<T: Drop> From<AllocFailed<T>> for NoMemory {
    fn from(_error: AllocFailed<T>) -> NoMemory {
        NoMemory
    }
}

impl From<NoMemory> for Stop {
    ghost from_gives = { λ _ stop. stop ≡ stops.NoMemory };

    fn from(_error: NoMemory) -> Stop {
        Stop::NoMemory
    }
}

impl From<NoMemory> for CoreError {
    ghost from_gives = { λ _ error. error ≡ errors.Stop stops.NoMemory };

    fn from(_error: NoMemory) -> CoreError {
        CoreError::Stop(Stop::NoMemory)
    }
}

impl From<AllocError> for CoreError {
    ghost from_gives = { λ _ error. error ≡ errors.Stop stops.NoMemory };

    fn from(_error: AllocError) -> CoreError {
        CoreError::from(NoMemory)
    }
}

impl From<Stop> for CoreError {
    ghost from_gives = { λ stop error. error ≡ errors.Stop stop };

    fn from(stop: Stop) -> CoreError {
        CoreError::Stop(stop)
    }
}

impl From<Errno> for CoreError {
    ghost from_gives = { λ errno error. error ≡ errors.Refused errno };

    fn from(errno: Errno) -> CoreError {
        CoreError::Refused(errno)
    }
}
