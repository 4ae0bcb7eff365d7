//! The numbers of the events of poll(2).
ghost use Rattle.std.specs.Prelude.{◌*◌, ⊤, ◌≡◌, ◌≤◌, IsTrue};
ghost use Rattle.number_tables.specs.PollNumbers.{o32_poll, o32_poll_read, poll_of_o32, native_poll, native_poll_read, poll_of_native};
ghost use Rattle.number_tables.specs.inside.PollLaws.{o32_poll_number, o32_poll_found, o32_poll_paired, native_poll_number, native_poll_found};
ghost use Rattle.kernel_core.specs.Bits.{one_if};
ghost use Rattle.kernel_core.specs.inside.EventBits.{poll_bits};

use crate::bits::{has, one_if};
use crate::{NativeNumber, O32Number};
use bitflags::Flags;
use kernel_core::{EventBits, PollBits};

impl O32Number for PollBits {
    ghost listed_in_o32 = { λ flags. flags.output ≡ flags.wrnorm };

    ghost o32 = { o32_poll };

    ghost named_by_o32 = { poll_of_o32 };

    fn to_o32(self) -> u32 {
        1 * one_if(self.input())
            + 2 * one_if(self.pri())
            + 4 * one_if(self.output() || self.wrnorm())
            + 8 * one_if(self.err())
            + 0x10 * one_if(self.hup())
            + 0x20 * one_if(self.nval())
            + 0x40 * one_if(self.rdnorm())
            + 0x80 * one_if(self.rdband())
            + 0x100 * one_if(self.wrband())
    }

    fn of_o32(number: u32) -> Option<PollBits> {
        let flags = poll_bits_in_o32(number);
        if flags.to_o32() == number {
            Some(flags)
        } else {
            None
        }
    }

    ghost number_again = { o32_poll_number };

    ghost value_again = { o32_poll_found };

    ghost named_listed = { o32_poll_paired };
}

impl NativeNumber for PollBits {
    ghost listed_natively = { λ _. ⊤ };

    ghost native = { native_poll };

    ghost named_natively = { poll_of_native };

    fn to_native(self) -> u64 {
        u64::from(
            1 * one_if(self.input())
                + 2 * one_if(self.pri())
                + 4 * one_if(self.output())
                + 8 * one_if(self.err())
                + 0x10 * one_if(self.hup())
                + 0x20 * one_if(self.nval())
                + 0x40 * one_if(self.rdnorm())
                + 0x80 * one_if(self.rdband())
                + 0x100 * one_if(self.wrnorm())
                + 0x200 * one_if(self.wrband()),
        )
    }

    fn of_native(number: u64) -> Option<PollBits> {
        let flags = poll_bits_in_native(number);
        if flags.to_native() == number {
            Some(flags)
        } else {
            None
        }
    }

    ghost number_again = { native_poll_number };

    ghost value_again = { λ flags _. native_poll_found flags };

    ghost named_listed = { λ _ _ _. tt };
}

/// The events of a number from an o32 program, whose other bits are dropped as poll(2) drops them.
pub fn poll_bits_in_o32(number: u32) -> PollBits
    ensures { result ≡ o32_poll_read number }
{
    let number = u64::from(number);
    PollBits::new(EventBits::from_bits_retain(o32_bits(number)))
}

/// The events of a native number, whose other bits are dropped as poll(2) drops them.
pub fn poll_bits_in_native(number: u64) -> PollBits
    ensures { result ≡ native_poll_read number }
{
    PollBits::new(EventBits::from_bits_retain(native_bits(number)))
}

/// The bits of the events that an o32 number has.
fn o32_bits(number: u64) -> u16
    ensures { result ≡ poll_bits (o32_poll_read number) }
{
    bit_if(EventBits::IN, has(number, 1))
        + bit_if(EventBits::PRI, has(number, 2))
        + bit_if(EventBits::OUT, has(number, 4))
        + bit_if(EventBits::ERR, has(number, 8))
        + bit_if(EventBits::HUP, has(number, 0x10))
        + bit_if(EventBits::NVAL, has(number, 0x20))
        + bit_if(EventBits::RDNORM, has(number, 0x40))
        + bit_if(EventBits::RDBAND, has(number, 0x80))
        + bit_if(EventBits::WRNORM, has(number, 4))
        + bit_if(EventBits::WRBAND, has(number, 0x100))
}

/// The bits of the events that a native number has.
fn native_bits(number: u64) -> u16
    ensures { result ≡ poll_bits (native_poll_read number) }
{
    bit_if(EventBits::IN, has(number, 1))
        + bit_if(EventBits::PRI, has(number, 2))
        + bit_if(EventBits::OUT, has(number, 4))
        + bit_if(EventBits::ERR, has(number, 8))
        + bit_if(EventBits::HUP, has(number, 0x10))
        + bit_if(EventBits::NVAL, has(number, 0x20))
        + bit_if(EventBits::RDNORM, has(number, 0x40))
        + bit_if(EventBits::RDBAND, has(number, 0x80))
        + bit_if(EventBits::WRNORM, has(number, 0x100))
        + bit_if(EventBits::WRBAND, has(number, 0x200))
}

/// The bit of a flag where it is set, and else 0.
fn bit_if(bit: EventBits, set: bool) -> u16
    ensures { result ≡ bit.0 * one_if set }
{
    if set { bit.bits() } else { 0 }
}
