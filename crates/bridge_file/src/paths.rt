//! The paths of a call: the program that gives them, and where each of them counts from.
ghost use Rattle.std.specs.Prelude.{◌≡◌};
ghost use Rattle.o32_model.specs.PathArguments.{working};

use guest_space::Space;
use o32_model::CallWords;
use std::alloc::Global;

/// AT_FDCWD, as an int (Linux `include/uapi/linux/fcntl.h`): a path begins at the working directory.
const WORKING: u32 = 0xFFFF_FF9C;

/// The program that makes a call with paths, as the call reads it.
#[derive(Clone, Copy)]
pub(crate) struct Caller<'a> {
    /// Where the room for its paths comes from.
    pub(crate) alloc: Global,
    /// The words of the call.
    pub(crate) words: &'a CallWords,
    /// The program's memory.
    pub(crate) space: &'a Space,
}

/// A path, as a call gives it.
#[derive(Clone, Copy)]
pub(crate) struct PathAt {
    /// The directory that a relative one counts from: a descriptor, or AT_FDCWD.
    pub(crate) directory: u32,
    /// Its address in the program's memory.
    pub(crate) address: u32,
}

/// A path that counts from the working directory.
pub(crate) fn here(address: u32) -> PathAt
    ensures { result ≡ record { directory = working; address = address } }
{
    at(WORKING, address)
}

/// A path that counts from a directory of the call.
pub(crate) fn at(directory: u32, address: u32) -> PathAt
    ensures { result ≡ record { directory = directory; address = address } }
{
    PathAt { directory, address }
}
