//! The entries that getdents(2) and getdents64(2) give, whose length is that of their name.
ghost use Rattle.std.specs.Prelude.{◌≡◌, ◌+◌, ◌≤◌, length};
ghost use Rattle.layouts.specs.Dirents as spec;
ghost use Rattle.layouts.specs.Number.{bytes_of};

/// What an entry of a directory names, as getdents(2) tells it (`d_type` of Linux `include/linux/fs_types.h`).
#[derive(Clone, Copy)]
pub enum EntryType {
    Directory = 4,
    File = 8,
    Link = 10,
}

impl EntryType {
    /// The number that stands in an entry.
    pub fn number(self) -> u8
        ensures { result ≡ spec.type_number self }
    {
        self as u8
    }
}

/// The length in bytes of an entry of getdents(2) with a name of this length.
pub fn dirent_length(name: usize) -> usize
    requires { name ≤ 255 }
    ensures { result ≡ spec.dirent_length name }
{
    (12 + name).next_multiple_of(4)
}

/// The length in bytes of an entry of getdents64(2) with a name of this length, in both worlds.
pub fn dirent64_length(name: usize) -> usize
    requires { name ≤ 255 }
    ensures { result ≡ spec.dirent64_length name }
{
    (20 + name).next_multiple_of(8)
}

/// Puts a part at a place.
pub(crate) fn put_part(bytes: &mut [u8], offset: usize, part: &[u8])
    requires { offset + length part.now ≤ length bytes.old }
    ensures { bytes.new ≡ spec.placed offset part.now bytes.old }
{
    bytes[offset..offset + part.len()].copy_from_slice(part);
}

/// Writes an entry of getdents(2) of an o32 program: node number, place of the next entry, type and
/// name, and 0 in each other byte.
pub fn put_dirent(entry: &mut [u8], ino: u32, offset: u32, kind: u8, name: &[u8])
    requires short { length name.now ≤ 255 }
    requires whole { length entry.old ≡ spec.dirent_length (length name.now) }
    ensures { entry.new ≡ spec.dirent_bytes ino offset kind name.now }
{
    let length = entry.len();
    entry.fill(0);
    put_part(entry, 0, &ino.to_be_bytes());
    put_part(entry, 4, &offset.to_be_bytes());
    put_part(entry, 8, &(length as u16).to_be_bytes());
    put_part(entry, 10, name);
    put_part(entry, length - 1, &[kind]);
}

/// The bytes of a number of 8 bytes, the first counting most or least.
fn double(big: bool, number: u64) -> [u8; 8]
    ensures { result ≡ bytes_of big 8 number }
{
    if big {
        number.to_be_bytes()
    } else {
        number.to_le_bytes()
    }
}

/// The bytes of a number of 2 bytes, the first counting most or least.
fn short(big: bool, number: u16) -> [u8; 2]
    ensures { result ≡ bytes_of big 2 number }
{
    if big {
        number.to_be_bytes()
    } else {
        number.to_le_bytes()
    }
}

/// Writes an entry of getdents64(2), the first byte of its numbers counting most (an o32 program's)
/// or least (a native one): node number, place of the next entry, type and name, and 0 in each
/// other byte.
pub fn put_dirent64(big: bool, entry: &mut [u8], ino: u64, offset: u64, kind: u8, name: &[u8])
    requires short { length name.now ≤ 255 }
    requires whole { length entry.old ≡ spec.dirent64_length (length name.now) }
    ensures { entry.new ≡ spec.dirent64_bytes big ino offset kind name.now }
{
    let length = entry.len();
    entry.fill(0);
    put_part(entry, 0, &double(big, ino));
    put_part(entry, 8, &double(big, offset));
    put_part(entry, 16, &short(big, length as u16));
    put_part(entry, 18, &[kind]);
    put_part(entry, 19, name);
}
