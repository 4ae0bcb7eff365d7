//! The numbers in a file, high byte first.
ghost use Rattle.std.specs.Prelude.{◌≡◌, ◌+◌, ◌≤◌, length};
ghost use Rattle.elf_image.specs.Fields.{half, word};

use byteorder::{BigEndian, ByteOrder};

/// The bytes of the file's header.
pub const HEADER_SIZE: usize = 52;

/// Where the fields of the file's header begin: the class, the order and the version of e_ident.
pub const CLASS: usize = 4;

pub const ORDER: usize = 5;

pub const IDENT_VERSION: usize = 6;

/// e_type, e_machine and e_version.
pub const TYPE: usize = 16;

pub const MACHINE: usize = 18;

pub const VERSION: usize = 20;

/// e_entry and e_flags.
pub const ENTRY: usize = 24;

pub const FLAGS: usize = 36;

/// e_phoff, e_phentsize and e_phnum.
pub const TABLE_PLACE: usize = 28;

pub const TABLE_WIDTH: usize = 42;

pub const TABLE_COUNT: usize = 44;

/// The number in the two bytes at an offset.
#[tactic(auto, unfolding(crate::specs::Fields::half))]
pub fn half_at(bytes: &[u8], offset: usize) -> u16
    requires { offset + 2 ≤ length bytes.now }
    ensures { result ≡ half bytes.now offset }
{
    BigEndian::read_u16(&bytes[offset..])
}

/// The number in the four bytes at an offset.
#[tactic(auto, unfolding(crate::specs::Fields::word))]
pub fn word_at(bytes: &[u8], offset: usize) -> u32
    requires { offset + 4 ≤ length bytes.now }
    ensures { result ≡ word bytes.now offset }
{
    BigEndian::read_u32(&bytes[offset..])
}
