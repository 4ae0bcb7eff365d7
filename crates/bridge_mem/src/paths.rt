//! Paths in the program's memory.
ghost use Rattle.std.specs.Prelude.{◌≡◌, ◌<◌, ◌≤◌, ◌++◌, IfOk, OnOk, IfSome, None, is_some, unwrap_or, length, take, position, ◌==◌, if◌then◌else◌};
ghost use Rattle.bridge_mem.specs.declared.paths.PathError.TheVariants as errors;
ghost use Rattle.guest_space.specs.Access.{first_denied};
ghost use Rattle.guest_space.specs.Bytes.{bytes_at};
ghost use Rattle.guest_space.specs.declared.access.Access.TheVariants.{Load};
ghost use Rattle.o32_model.specs.Paths.{path_at, is_nul, path_limit};
ghost use Rattle.bridge_mem.specs.Paths.{IsPathAnswer};

use crate::buffers::read_bytes;
use guest_space::Space;
use kernel_core::Bytes;
use kernel_core::limits::PATH_MAX;
use std::alloc::{AllocError, Global};

/// Why there is no path. (The names are this project's own.)
#[derive(Clone, Copy, PartialEq, Eq)]
pub enum PathError {
    /// A byte before the NUL may not be loaded.
    Fault,
    /// None of 4,096 bytes is NUL.
    TooLong,
    /// There was not enough memory.
    NoMemory,
}

impl From<AllocError> for PathError {
    ghost use Rattle.std.specs.Prelude.{◌≡◌};
    ghost use Rattle.bridge_mem.specs.declared.paths.PathError.TheVariants as errors;

    ghost from_gives = { λ _ error. error ≡ errors.NoMemory };

    fn from(_error: AllocError) -> PathError {
        PathError::NoMemory
    }
}

/// How many bytes are looked at in one go.
const PIECE: usize = 64;

/// The path at `addr`: the bytes before the first NUL, at most 4,095. It costs by their number.
pub fn path(alloc: Global, space: &Space, addr: u32) -> Result<Bytes, PathError>
    ensures answer { IsPathAnswer (path_at space.now addr) result }
    ensures short { IfOk result (λ path. length path < path_limit) }
    ensures plain { IfOk result (λ path. position is_nul path ≡ None) }
{
    let room = space.readable(addr, PATH_MAX as u32) as usize;
    let mut bytes = Vec::new(alloc);
    while bytes.len() < room {
        let size = PIECE.min(room - bytes.len());
        if append_piece(space, addr + bytes.len() as u32, size, &mut bytes)? {
            return Ok(Bytes::from(bytes));
        }
    }
    Err(why_none(room))
}

/// Why there is no path where none of the first bytes is NUL, and just so many of them may be loaded.
fn why_none(room: usize) -> PathError
    ensures { result ≡ (if room == path_limit then errors.TooLong else errors.Fault) }
{
    if room == PATH_MAX {
        PathError::TooLong
    } else {
        PathError::Fault
    }
}

/// Adds the bytes of a piece of `size` bytes that stand before its first NUL, and answers whether it has
/// one.
fn append_piece(
    space: &Space,
    at: u32,
    size: usize,
    bytes: &mut Vec<u8>,
) -> Result<bool, AllocError>
    requires small { size ≤ 64 }
    requires readable { first_denied Load space.now.pages at size ≡ None }
    ensures text { let piece = bytes_at space.now.pages at size in
        OnOk result (bytes.new.items ≡ bytes.old.items ++ take (unwrap_or (position is_nul piece) size) piece) }
    ensures found { IfOk result (λ found. found ≡ is_some (position is_nul (bytes_at space.now.pages at size))) }
{
    let mut buffer = [0; PIECE];
    let piece = &mut buffer[..size];
    read_bytes(space, at, piece);
    let place = nul_place(piece);
    bytes.extend_from_slice(&piece[..place.unwrap_or(size)])?;
    Ok(place.is_some())
}

/// The place of the first NUL.
fn nul_place(piece: &[u8]) -> Option<usize>
    ensures value { result ≡ position is_nul piece.now }
    ensures bound { IfSome result (λ place. place < length piece.now) }
{
    piece.iter().position(|byte| *byte == 0)
}
