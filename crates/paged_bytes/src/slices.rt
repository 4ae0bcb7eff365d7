//! Parts of a slice of any size.
ghost use Rattle.std.specs.Prelude.{◌≡◌, ◌+◌, ◌-◌, ◌≤◌, ◌++◌, length, take, drop, IfOk, replicate};
ghost use Rattle.paged_bytes.specs.Pages.{put_at};

use std::alloc::{AllocError, Global};

/// So many zeros.
pub(crate) fn zero_bytes(alloc: Global, size: usize) -> Result<Vec<u8>, AllocError>
    ensures { IfOk result (λ v. v.items ≡ replicate size 0) }
{
    vec![in alloc; 0; size]
}

/// Reads a part into the whole piece.
pub(crate) fn read_part(all: &[u8], place: usize, piece: &mut [u8])
    requires { place + length piece.old ≤ length all.now }
    ensures { piece.new ≡ take (length piece.old) (drop place all.now) }
{
    piece.copy_from_slice(&all[place..place + piece.len()]);
}

/// Writes the piece from the place on.
pub(crate) fn put(all: &mut [u8], place: usize, piece: &[u8])
    requires { place + length piece.now ≤ length all.old }
    ensures { all.new ≡ put_at all.old place piece.now }
{
    all[place..place + piece.len()].copy_from_slice(piece);
}

/// Makes the bytes from the place on 0.
pub(crate) fn clear_from(all: &mut [u8], place: usize)
    requires { place ≤ length all.old }
    ensures { all.new ≡ take place all.old ++ replicate (length all.old - place) 0 }
{
    all[place..].fill(0);
}
