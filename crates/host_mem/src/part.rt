//! A part of a slice.
ghost use Rattle.std.specs.Prelude.{◌≡◌, ◌+◌, ◌≤◌, length};
ghost use Rattle.host_mem.specs.Memory.{replaced};

/// Writes the bytes in place of those from the place on.
pub(crate) fn replace_part(all: &mut [u8], place: usize, bytes: &[u8])
    requires { place + length bytes.now ≤ length all.old }
    ensures { all.new ≡ replaced all.old place bytes.now }
{
    all[place..place + bytes.len()].copy_from_slice(bytes);
}
