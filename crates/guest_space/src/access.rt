//! What is done with a byte of memory, why it may not be, and the errors of the calls.

use kernel_core::NoMemory;

/// What is done with a byte: `Load` is for loads and fetches, `Store` for stores.
#[derive(Clone, Copy)]
pub enum Access {
    Load,
    Store,
}

/// Why a byte may not be used. The names are this project's own.
#[derive(Clone, Copy)]
pub enum Why {
    /// No page is mapped there.
    Absent,
    /// The page's protection doesn't allow it.
    Forbidden,
    /// The address lies past user space, from 0x7FFF8000 on.
    Beyond,
}

/// The first byte that may not be used: its address and the reason.
#[derive(Clone, Copy)]
pub struct Denied {
    pub addr: u32,
    pub why: Why,
}

/// Why a store was not carried out.
#[derive(Clone, Copy)]
pub enum StoreError {
    /// The first byte that may not be stored to.
    Denied(Denied),
    /// There was not enough memory for a page that was not yet written.
    NoMemory,
}

/// Why pages were not mapped.
#[derive(Clone, Copy)]
pub enum MapError {
    /// More than 131,072 pages would be mapped.
    Full,
    /// There is no place for the pages.
    NoPlace,
    /// There was not enough memory.
    NoMemory,
}

impl From<Denied> for StoreError {
    ghost use Rattle.std.specs.Prelude.{◌≡◌};
    ghost use Rattle.guest_space.specs.declared.access.StoreError.TheVariants as error;

    ghost from_gives = { λ denied e. e ≡ error.Denied denied };

    fn from(denied: Denied) -> StoreError {
        StoreError::Denied(denied)
    }
}

impl From<NoMemory> for StoreError {
    ghost use Rattle.std.specs.Prelude.{◌≡◌};
    ghost use Rattle.guest_space.specs.declared.access.StoreError.TheVariants as error;

    ghost from_gives = { λ _ e. e ≡ error.NoMemory };

    fn from(_error: NoMemory) -> StoreError {
        StoreError::NoMemory
    }
}

impl From<NoMemory> for MapError {
    ghost use Rattle.std.specs.Prelude.{◌≡◌};
    ghost use Rattle.guest_space.specs.declared.access.MapError.TheVariants as error;

    ghost from_gives = { λ _ e. e ≡ error.NoMemory };

    fn from(_error: NoMemory) -> MapError {
        MapError::NoMemory
    }
}
