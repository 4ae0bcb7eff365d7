//! The paths that calls are given, and where they begin (path_resolution(7), openat(2)).
ghost use Rattle.std.specs.Prelude.{◌≡◌, ◌+◌, ◌<◌, ◌≤◌, ◌==◌, IfOk, MatchOption, take, length, position, slice_index, Some, None, false};
ghost use Rattle.std.specs.List.{list_any};
ghost use Rattle.native_calls.specs.Arguments.{low_word};
ghost use Rattle.native_calls.specs.Paths as paths;
ghost use Rattle.native_files.specs.Answers.{IsPlain, IsShortPlain, WhereRead, base_of, text_of};

use crate::arguments::low_word;
use crate::structures::loadable;
use host_mem::HostMem;
use kernel_core::Errno;
use native_files::Base;

/// How many bytes a path has at most with its NUL (PATH_MAX of Linux `include/uapi/linux/limits.h`).
const PATH_LIMIT: u64 = 4096;

/// AT_FDCWD, -100 as an int (Linux `include/uapi/linux/fcntl.h`).
const AT_FDCWD: u32 = 0xFFFF_FF9C;

/// A path as a call gives it: the directory that a relative one begins at, and its address.
#[derive(Clone, Copy)]
pub(crate) struct PathAt {
    pub(crate) directory: u32,
    pub(crate) address: u64,
}

impl PathAt {
    /// The path that two words of a call give, of which this is the first.
    #[inline(always)]
    pub(crate) fn of(args: &[u64; 6], first: usize) -> PathAt
        requires { first < 5 }
        ensures { result ≡ record { directory = low_word (slice_index args.now first); address = slice_index args.now (first + 1) } }
    {
        PathAt {
            directory: low_word(args[first]),
            address: args[first + 1],
        }
    }
}

/// Where a path begins that does not begin with a slash.
pub(crate) fn base_of(directory: u32) -> Base
    ensures { base_of result ≡ paths.base_of directory }
{
    if directory == AT_FDCWD {
        Base::Working
    } else {
        Base::Descriptor(directory)
    }
}

/// The path at an address, up to its NUL. ENAMETOOLONG where none of 4,096 bytes is NUL; EFAULT where memory ends
/// before one.
#[tactic(auto, unfolding(native_calls::specs::Paths::path_at))]
pub(crate) fn path_at(mem: &HostMem, address: u64) -> Result<&[u8], Errno>
    ensures path { text_of result ≡ paths.path_at mem.now address }
    ensures short { WhereRead IsShortPlain (text_of result) }
    ensures plain { WhereRead IsPlain (text_of result) }
{
    let bytes = loadable(mem, address, PATH_LIMIT);
    match nul_place(bytes) {
        Some(place) => Ok(&bytes[..place]),
        None => Err(if bytes.len() as u64 == PATH_LIMIT {
            Errno::ENAMETOOLONG
        } else {
            Errno::EFAULT
        }),
    }
}

/// The place of the first NUL.
fn nul_place(bytes: &[u8]) -> Option<usize>
    ensures { result ≡ position paths.is_nul bytes.now }
{
    bytes.iter().position(|byte| *byte == 0)
}
