//! The numbers of the flags of sigaction(2).
ghost use Rattle.std.specs.Prelude.{◌*◌, ⊤, ◌≡◌, ◌≤◌, IsTrue};
ghost use Rattle.number_tables.specs.SaNumbers.{o32_sa, o32_sa_read, sa_of_o32, native_sa, native_sa_read, sa_of_native};
ghost use Rattle.number_tables.specs.inside.SaLaws.{o32_sa_number, o32_sa_found, native_sa_number, native_sa_found};
ghost use Rattle.kernel_core.specs.Bits.{one_if};
ghost use Rattle.kernel_core.specs.inside.SaBits.{sa_bits};

use crate::bits::{has, one_if};
use crate::{NativeNumber, O32Number};
use bitflags::Flags;
use kernel_core::{SaBits, SaFlags};

impl O32Number for SaFlags {
    ghost listed_in_o32 = { λ _. ⊤ };

    ghost o32 = { o32_sa };

    ghost named_by_o32 = { sa_of_o32 };

    fn to_o32(self) -> u32 {
        1 * one_if(self.nocldstop())
            + 8 * one_if(self.siginfo())
            + 0x10000 * one_if(self.nocldwait())
            + 0x08000000 * one_if(self.onstack())
            + 0x10000000 * one_if(self.restart())
            + 0x40000000 * one_if(self.nodefer())
            + 0x80000000 * one_if(self.resethand())
    }

    fn of_o32(number: u32) -> Option<SaFlags> {
        let flags = sa_flags_in_o32(number);
        if flags.to_o32() == number {
            Some(flags)
        } else {
            None
        }
    }

    ghost number_again = { o32_sa_number };

    ghost value_again = { λ flags _. o32_sa_found flags };

    ghost named_listed = { λ _ _ _. tt };
}

impl NativeNumber for SaFlags {
    ghost listed_natively = { λ _. ⊤ };

    ghost native = { native_sa };

    ghost named_natively = { sa_of_native };

    fn to_native(self) -> u64 {
        u64::from(
            1 * one_if(self.nocldstop())
                + 4 * one_if(self.siginfo())
                + 2 * one_if(self.nocldwait())
                + 0x08000000 * one_if(self.onstack())
                + 0x10000000 * one_if(self.restart())
                + 0x40000000 * one_if(self.nodefer())
                + 0x80000000 * one_if(self.resethand()),
        )
    }

    fn of_native(number: u64) -> Option<SaFlags> {
        let flags = sa_flags_in_native(number);
        if flags.to_native() == number {
            Some(flags)
        } else {
            None
        }
    }

    ghost number_again = { native_sa_number };

    ghost value_again = { λ flags _. native_sa_found flags };

    ghost named_listed = { λ _ _ _. tt };
}

/// The flags of a number from an o32 program, whose other bits are dropped as sigaction(2) drops
/// them.
pub fn sa_flags_in_o32(number: u32) -> SaFlags
    ensures { result ≡ o32_sa_read number }
{
    let number = u64::from(number);
    SaFlags::new(SaBits::from_bits_retain(o32_bits(number)))
}

/// The flags of a native number, whose other bits are dropped as sigaction(2) drops them.
pub fn sa_flags_in_native(number: u64) -> SaFlags
    ensures { result ≡ native_sa_read number }
{
    SaFlags::new(SaBits::from_bits_retain(native_bits(number)))
}

/// The bits of the flags that an o32 number has.
fn o32_bits(number: u64) -> u8
    ensures { result ≡ sa_bits (o32_sa_read number) }
{
    bit_if(SaBits::NOCLDSTOP, has(number, 1))
        + bit_if(SaBits::SIGINFO, has(number, 8))
        + bit_if(SaBits::NOCLDWAIT, has(number, 0x10000))
        + bit_if(SaBits::ONSTACK, has(number, 0x08000000))
        + bit_if(SaBits::RESTART, has(number, 0x10000000))
        + bit_if(SaBits::NODEFER, has(number, 0x40000000))
        + bit_if(SaBits::RESETHAND, has(number, 0x80000000))
}

/// The bits of the flags that a native number has.
fn native_bits(number: u64) -> u8
    ensures { result ≡ sa_bits (native_sa_read number) }
{
    bit_if(SaBits::NOCLDSTOP, has(number, 1))
        + bit_if(SaBits::SIGINFO, has(number, 4))
        + bit_if(SaBits::NOCLDWAIT, has(number, 2))
        + bit_if(SaBits::ONSTACK, has(number, 0x08000000))
        + bit_if(SaBits::RESTART, has(number, 0x10000000))
        + bit_if(SaBits::NODEFER, has(number, 0x40000000))
        + bit_if(SaBits::RESETHAND, has(number, 0x80000000))
}

/// The bit of a flag where it is set, and else 0.
fn bit_if(bit: SaBits, set: bool) -> u8
    ensures { result ≡ bit.0 * one_if set }
{
    if set { bit.bits() } else { 0 }
}
