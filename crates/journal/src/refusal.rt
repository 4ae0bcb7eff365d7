//! Why bytes are no journal.
ghost use Rattle.std.specs.Prelude.{◌≡◌};
ghost use Rattle.journal.specs.declared.refusal.JournalError.TheVariants.{Bad, NoMemory};

use std::alloc::{AllocError, AllocFailed};
use thiserror::Error;

/// Why bytes give no journal.
#[derive(Debug, Drop, Error)]
pub enum JournalError {
    /// A field breaks the form: the offset of its first byte, or the length of all bytes where they end
    /// early.
    #[error("the journal is bad at byte {at}")]
    Bad { at: u64 },
    /// What the journal keeps does not fit into memory.
    #[error("out of memory")]
    NoMemory,
}

/// A field that breaks the form, where nothing else can go wrong.
#[derive(Clone, Copy)]
pub(crate) struct BadField {
    /// The offset of its first byte, or the length of all bytes where they end early.
    pub(crate) at: u64,
}

impl From<BadField> for JournalError {
    ghost from_gives = { λ bad e. e ≡ Bad bad.at };

    fn from(bad: BadField) -> JournalError {
        JournalError::Bad { at: bad.at }
    }
}

impl From<AllocError> for JournalError {
    ghost from_gives = { λ _ e. e ≡ NoMemory };

    fn from(_error: AllocError) -> JournalError {
        JournalError::NoMemory
    }
}

impl<T: Drop> From<AllocFailed<T>> for JournalError {
    ghost from_gives = { λ _ e. e ≡ NoMemory };

    fn from(_error: AllocFailed<T>) -> JournalError {
        JournalError::NoMemory
    }
}
