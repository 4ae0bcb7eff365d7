//! Bytes written into a slice.
ghost use Rattle.std.specs.Prelude.{◌≡◌, ◌+◌, ◌≤◌, length};
ghost use Rattle.raw_pages.specs.Pages.{put_at};

/// Writes the bytes from the place on. One, two and four bytes, the widths of a store, are read before one is written,
/// and moved without a call.
#[inline(always)]
pub(crate) fn put(all: &mut [u8], at: usize, bytes: &[u8])
    requires { at + length bytes.now ≤ length all.old }
    ensures { all.new ≡ put_at all.old at bytes.now }
{
    match bytes {
        [a] => all[at] = *a,
        [a, b] => put_part(all, at, 2, &[*a, *b]),
        [a, b, c, d] => put_part(all, at, 4, &[*a, *b, *c, *d]),
        _ => put_part(all, at, bytes.len(), bytes),
    }
}

/// Writes the bytes, `size` of them.
#[inline(always)]
fn put_part(all: &mut [u8], at: usize, size: usize, bytes: &[u8])
    requires size { length bytes.now ≡ size }
    requires room { at + length bytes.now ≤ length all.old }
    ensures { all.new ≡ put_at all.old at bytes.now }
{
    all[at..at + size].copy_from_slice(bytes);
}
