//! The numbers of the flags of mmap(2), which only an o32 program has.
ghost use Rattle.std.specs.Prelude.{◌*◌, ⊤, ◌≡◌, ◌≤◌, IsTrue};
ghost use Rattle.number_tables.specs.MapNumbers.{o32_map, o32_map_read, map_of_o32, map_flags_in};
ghost use Rattle.number_tables.specs.inside.MapLaws.{o32_map_number, o32_map_found};
ghost use Rattle.number_tables.specs.MapNumbers as spec;
ghost use Rattle.kernel_core.specs.Bits.{one_if};
ghost use Rattle.kernel_core.specs.inside.MapBits.{map_bits};

use crate::O32Number;
use crate::bits::{has, one_if};
use bitflags::Flags;
use kernel_core::{MapBits, MapFlags, MapKind};

impl O32Number for MapFlags {
    ghost listed_in_o32 = { λ _. ⊤ };

    ghost o32 = { o32_map };

    ghost named_by_o32 = { map_of_o32 };

    fn to_o32(self) -> u32 {
        kind_number(self.kind())
            + 0x10 * one_if(self.fixed())
            + 0x400 * one_if(self.noreserve())
            + 0x800 * one_if(self.anonymous())
    }

    fn of_o32(number: u32) -> Option<MapFlags> {
        let flags = read_map_flags(number);
        if flags.to_o32() == number {
            Some(flags)
        } else {
            None
        }
    }

    ghost number_again = { o32_map_number };

    ghost value_again = { λ flags _. o32_map_found flags };

    ghost named_listed = { λ _ _ _. tt };
}

/// The flags of a number from an o32 program, whose other bits mmap(2) ignores; None exactly where
/// its four low bits are the number of neither type.
pub fn map_flags_in_o32(number: u32) -> Option<MapFlags>
    ensures { result ≡ map_flags_in number }
{
    if number % 16 == 1 || number % 16 == 2 {
        Some(read_map_flags(number))
    } else {
        None
    }
}

/// The flags whose bits an o32 number has, whatever its other bits.
fn read_map_flags(number: u32) -> MapFlags
    ensures { result ≡ o32_map_read number }
{
    let number = u64::from(number);
    MapFlags::new(kind_of(number), MapBits::from_bits_retain(o32_bits(number)))
}

fn kind_number(kind: MapKind) -> u32
    ensures value { result ≡ spec.kind_number kind }
    ensures at_most { result ≤ 2 }
{
    match kind {
        MapKind::Shared => 1,
        MapKind::Private => 2,
    }
}

/// The type in the four low bits, which in a number of flags is 1 or 2.
fn kind_of(number: u64) -> MapKind
    ensures { result ≡ spec.kind_of number }
{
    if number % 16 == 1 {
        MapKind::Shared
    } else {
        MapKind::Private
    }
}

/// The bits of the flags that an o32 number has.
fn o32_bits(number: u64) -> u8
    ensures { result ≡ map_bits (o32_map_read number) }
{
    bit_if(MapBits::FIXED, has(number, 0x10))
        + bit_if(MapBits::NORESERVE, has(number, 0x400))
        + bit_if(MapBits::ANONYMOUS, has(number, 0x800))
}

/// The bit of a flag where it is set, and else 0.
fn bit_if(bit: MapBits, set: bool) -> u8
    ensures { result ≡ bit.0 * one_if set }
{
    if set { bit.bits() } else { 0 }
}
