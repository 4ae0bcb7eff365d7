//! Why a process can't start.

ghost use Rattle.std.specs.Prelude.{◌≡◌};

use guest_space::NoMemory;
use std::alloc::AllocError;

/// Why no first memory was made.
#[derive(Debug, PartialEq, Eq, Drop)]
pub enum StartError {
    /// The strings and the words of the stack take more than 131,072 bytes together.
    TooLong,
    /// There was no memory.
    NoMemory,
}

impl From<AllocError> for StartError {
    ghost use Rattle.start_stack.specs.declared.error.StartError.TheVariants.{NoMemory};

    ghost from_gives = { λ _ e. e ≡ NoMemory };

    fn from(_: AllocError) -> StartError {
        StartError::NoMemory
    }
}

impl From<NoMemory> for StartError {
    ghost use Rattle.start_stack.specs.declared.error.StartError.TheVariants.{NoMemory};

    ghost from_gives = { λ _ e. e ≡ NoMemory };

    fn from(_: NoMemory) -> StartError {
        StartError::NoMemory
    }
}
