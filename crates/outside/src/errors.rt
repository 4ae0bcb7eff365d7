// What a device answers where it does not succeed.
use std::alloc::{AllocError, AllocFailed};

/// The device failed, and counted it.
#[derive(Clone, Copy, Debug, PartialEq, Eq)]
pub struct Failed;

/// Why a call that writes did not succeed.
#[derive(Clone, Copy, Debug, PartialEq, Eq)]
pub enum DevError {
    /// The device failed, and counted it.
    Failed,
    /// Memory ran out.
    NoMemory,
}

/// Why a file was not loaded.
#[derive(Clone, Copy, Debug, PartialEq, Eq)]
pub enum LoadError {
    /// The store failed, and counted it.
    Failed,
    /// There is no file of that name. This is no fault.
    Missing,
    /// The file is longer than the limit. This is no fault.
    TooLong,
    /// Memory ran out.
    NoMemory,
}

impl From<AllocError> for DevError {
    ghost use Rattle.std.specs.Prelude.{◌≡◌};
    ghost use Rattle.outside.specs.declared.errors.DevError.TheVariants.{NoMemory};

    ghost from_gives = { λ _ e. e ≡ NoMemory };

    fn from(_error: AllocError) -> DevError {
        DevError::NoMemory
    }
}

impl<T: Drop> From<AllocFailed<T>> for DevError {
    ghost use Rattle.std.specs.Prelude.{◌≡◌};
    ghost use Rattle.outside.specs.declared.errors.DevError.TheVariants.{NoMemory};

    ghost from_gives = { λ _ e. e ≡ NoMemory };

    fn from(_error: AllocFailed<T>) -> DevError {
        DevError::NoMemory
    }
}

impl From<AllocError> for LoadError {
    ghost use Rattle.std.specs.Prelude.{◌≡◌};
    ghost use Rattle.outside.specs.declared.errors.LoadError.TheVariants.{NoMemory};

    ghost from_gives = { λ _ e. e ≡ NoMemory };

    fn from(_error: AllocError) -> LoadError {
        LoadError::NoMemory
    }
}

impl<T: Drop> From<AllocFailed<T>> for LoadError {
    ghost use Rattle.std.specs.Prelude.{◌≡◌};
    ghost use Rattle.outside.specs.declared.errors.LoadError.TheVariants.{NoMemory};

    ghost from_gives = { λ _ e. e ≡ NoMemory };

    fn from(_error: AllocFailed<T>) -> LoadError {
        LoadError::NoMemory
    }
}
