//! Why bytes were not written into a page.
use std::alloc::AllocError;

/// Why a write that tests the page first was not carried out. The names are this project's own.
#[derive(Clone, Copy)]
pub enum WriteError {
    /// The page isn't mapped.
    Absent,
    /// The page's protection doesn't allow writing.
    Forbidden,
    /// There was not enough memory for the page's first write.
    NoMemory,
}

impl From<AllocError> for WriteError {
    ghost use Rattle.std.specs.Prelude.{◌≡◌};
    ghost use Rattle.raw_pages.specs.declared.write_error.WriteError.TheVariants as error;

    ghost from_gives = { λ _ e. e ≡ error.NoMemory };

    fn from(_error: AllocError) -> WriteError {
        WriteError::NoMemory
    }
}
