//! The numbers of the flags of open(2).
ghost use Rattle.std.specs.Prelude.{◌*◌, ⊤, ◌≡◌, ◌≤◌, IsTrue};
ghost use Rattle.number_tables.specs.OpenNumbers.{o32_open, o32_open_read, open_of_o32, native_open, native_open_read, open_of_native, is_synced};
ghost use Rattle.number_tables.specs.inside.OpenLaws.{o32_open_number, o32_open_found, o32_open_listed, native_open_number, native_open_found, native_open_listed};
ghost use Rattle.number_tables.specs.OpenNumbers as spec;
ghost use Rattle.kernel_core.specs.Bits.{one_if};
ghost use Rattle.kernel_core.specs.inside.OpenBits.{open_bits};

use crate::bits::{has, one_if};
use crate::{NativeNumber, O32Number};
use bitflags::Flags;
use kernel_core::{Access, OpenBits, OpenFlags};

impl O32Number for OpenFlags {
    ghost listed_in_o32 = { λ flags. IsTrue (is_synced flags) };

    ghost o32 = { o32_open };

    ghost named_by_o32 = { open_of_o32 };

    fn to_o32(self) -> u32 {
        access_number(self.access())
            + 0x8 * one_if(self.append())
            + 0x10 * one_if(self.dsync())
            + 0x80 * one_if(self.nonblock())
            + 0x100 * one_if(self.creat())
            + 0x200 * one_if(self.trunc())
            + 0x400 * one_if(self.excl())
            + 0x800 * one_if(self.noctty())
            + 0x2000 * one_if(self.largefile())
            + 0x4000 * one_if(self.sync())
            + 0x10000 * one_if(self.directory())
            + 0x20000 * one_if(self.nofollow())
            + 0x80000 * one_if(self.cloexec())
    }

    fn of_o32(number: u32) -> Option<OpenFlags> {
        let flags = open_flags_in_o32(u64::from(number));
        if flags.to_o32() == number && (flags.dsync() || !flags.sync()) {
            Some(flags)
        } else {
            None
        }
    }

    ghost number_again = { o32_open_number };

    ghost value_again = { o32_open_found };

    ghost named_listed = { o32_open_listed };
}

impl NativeNumber for OpenFlags {
    ghost listed_natively = { λ flags. IsTrue (is_synced flags) };

    ghost native = { native_open };

    ghost named_natively = { open_of_native };

    fn to_native(self) -> u64 {
        u64::from(
            access_number(self.access())
                + 0x400 * one_if(self.append())
                + 0x1000 * one_if(self.dsync())
                + 0x800 * one_if(self.nonblock())
                + 0x40 * one_if(self.creat())
                + 0x200 * one_if(self.trunc())
                + 0x80 * one_if(self.excl())
                + 0x100 * one_if(self.noctty())
                + 0x8000 * one_if(self.largefile())
                + 0x100000 * one_if(self.sync())
                + 0x10000 * one_if(self.directory())
                + 0x20000 * one_if(self.nofollow())
                + 0x80000 * one_if(self.cloexec()),
        )
    }

    fn of_native(number: u64) -> Option<OpenFlags> {
        let flags = open_flags_in_native(number);
        if flags.to_native() == number && (flags.dsync() || !flags.sync()) {
            Some(flags)
        } else {
            None
        }
    }

    ghost number_again = { native_open_number };

    ghost value_again = { native_open_found };

    ghost named_listed = { native_open_listed };
}

/// The flags whose bits an o32 number has, whatever its other bits.
fn open_flags_in_o32(number: u64) -> OpenFlags
    ensures { result ≡ o32_open_read number }
{
    OpenFlags::new(
        access_of(number),
        OpenBits::from_bits_retain(o32_bits(number)),
    )
}

/// The flags whose bits a native number has, whatever its other bits.
fn open_flags_in_native(number: u64) -> OpenFlags
    ensures { result ≡ native_open_read number }
{
    OpenFlags::new(
        access_of(number),
        OpenBits::from_bits_retain(native_bits(number)),
    )
}

fn access_number(access: Access) -> u32
    ensures value { result ≡ spec.access_number access }
    ensures at_most { result ≤ 2 }
{
    match access {
        Access::Read => 0,
        Access::Write => 1,
        Access::ReadWrite => 2,
    }
}

/// The access mode in the two low bits, which in a number of flags are not both set.
fn access_of(number: u64) -> Access
    ensures { result ≡ spec.access_of number }
{
    match number % 4 {
        1 => Access::Write,
        2 => Access::ReadWrite,
        _ => Access::Read,
    }
}

/// The bits of the flags that an o32 number has.
fn o32_bits(number: u64) -> u16
    ensures { result ≡ open_bits (o32_open_read number) }
{
    bit_if(OpenBits::APPEND, has(number, 0x8))
        + bit_if(OpenBits::DSYNC, has(number, 0x10))
        + bit_if(OpenBits::NONBLOCK, has(number, 0x80))
        + bit_if(OpenBits::CREAT, has(number, 0x100))
        + bit_if(OpenBits::TRUNC, has(number, 0x200))
        + bit_if(OpenBits::EXCL, has(number, 0x400))
        + bit_if(OpenBits::NOCTTY, has(number, 0x800))
        + bit_if(OpenBits::LARGEFILE, has(number, 0x2000))
        + bit_if(OpenBits::SYNC, has(number, 0x4000))
        + bit_if(OpenBits::DIRECTORY, has(number, 0x10000))
        + bit_if(OpenBits::NOFOLLOW, has(number, 0x20000))
        + bit_if(OpenBits::CLOEXEC, has(number, 0x80000))
}

/// The bits of the flags that a native number has.
fn native_bits(number: u64) -> u16
    ensures { result ≡ open_bits (native_open_read number) }
{
    bit_if(OpenBits::APPEND, has(number, 0x400))
        + bit_if(OpenBits::DSYNC, has(number, 0x1000))
        + bit_if(OpenBits::NONBLOCK, has(number, 0x800))
        + bit_if(OpenBits::CREAT, has(number, 0x40))
        + bit_if(OpenBits::TRUNC, has(number, 0x200))
        + bit_if(OpenBits::EXCL, has(number, 0x80))
        + bit_if(OpenBits::NOCTTY, has(number, 0x100))
        + bit_if(OpenBits::LARGEFILE, has(number, 0x8000))
        + bit_if(OpenBits::SYNC, has(number, 0x100000))
        + bit_if(OpenBits::DIRECTORY, has(number, 0x10000))
        + bit_if(OpenBits::NOFOLLOW, has(number, 0x20000))
        + bit_if(OpenBits::CLOEXEC, has(number, 0x80000))
}

/// The bit of a flag where it is set, and else 0.
fn bit_if(bit: OpenBits, set: bool) -> u16
    ensures { result ≡ bit.0 * one_if set }
{
    if set { bit.bits() } else { 0 }
}
