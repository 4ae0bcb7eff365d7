//! The flags of mmap(2).
ghost use Rattle.std.specs.Prelude.{⊤, ◌≡◌, ◌<◌, [], ◌∷◌, codes};
ghost use Rattle.kernel_core.specs.MapSet.{map_set};

use bitflags::{Flag, Flags, bitflag_items};
use std::marker::Model;

/// Whether stores to a mapping are seen by others: the type of mmap(2).
#[derive(Clone, Copy, PartialEq, Eq)]
pub enum MapKind {
    /// MAP_SHARED.
    Shared,
    /// MAP_PRIVATE.
    Private,
}

/// The bits in which [`MapFlags`] are kept, each by its name in mmap(2) without the prefix
/// `MAP_`.
///
/// Their places are this project's own: what number a flag has for an o32 program and for the native
/// kernel is told by `number_tables`.
#[derive(Clone, Copy, PartialEq, Eq)]
pub struct MapBits(u8);

bitflag_items! {
    impl MapBits: u8 {
        const FIXED = 1;
        const NORESERVE = 2;
        const ANONYMOUS = 4;
    }
}

impl Flags for MapBits {
    type Bits = u8;

    ghost exact = { ⊤ };

    ghost table = { (codes "FIXED", 1) ∷ (codes "NORESERVE", 2) ∷ (codes "ANONYMOUS", 4) ∷ [] };

    ghost set_of = { λ bits. bits.0 };

    fn flags<'a>() -> &'a [Flag<MapBits>] {
        MapBits::FLAGS
    }

    fn bits(&self) -> u8 {
        self.0
    }

    fn from_bits_retain(bits: u8) -> MapBits {
        MapBits(bits)
    }
}

/// The type of a mapping and the flags of mmap(2).
///
/// A contract sees the type and which flags are set, and no bit without a name.
#[derive(Clone, Copy, PartialEq, Eq)]
#[tactic(auto, using(crate::specs::inside::MapBits::map_bits_of))]
pub struct MapFlags {
    kind: MapKind,
    bits: MapBits,
}

impl Model for MapFlags {
    ghost use Rattle.std.specs.Prelude.{◌<◌};
    ghost use Rattle.kernel_core.specs.MapSet.{MapSet, map_set};
    ghost use Rattle.kernel_core.specs.inside.MapBits.{map_bits, map_bits_again};

    ghost Value = { MapSet };

    ghost view = { λ flags. map_set flags.kind flags.bits.0 };

    ghost invariant = { λ flags. flags.bits.0 < 8 };

    ghost inverse = { λ set. record { kind = set.kind; bits = record { 0 = map_bits set } } };

    ghost inverse_ok = { λ flags small. λ i. record { kind = flags.kind; bits = record { 0 = map_bits_again flags.kind flags.bits.0 small i } } };
}

#[tactic(auto, using(crate::proofs::FlagBits::one_flag))]
impl MapFlags {
    /// The type with these flags, without the bits that have no name.
    pub fn new(kind: MapKind, bits: MapBits) -> MapFlags
        ensures { result ≡ map_set kind bits.0 }
    {
        MapFlags {
            kind,
            bits: MapBits::from_bits_truncate(bits.0),
        }
    }

    /// The type.
    pub fn kind(self) -> MapKind
        ensures { result ≡ self.kind }
    {
        self.kind
    }

    /// The flags as bits, none of which is without a name.
    pub fn bits(self) -> MapBits
        ensures flags { map_set self.kind result.0 ≡ self }
        ensures named { result.0 < 8 }
    {
        self.bits
    }

    /// Whether MAP_FIXED is set.
    pub fn fixed(self) -> bool
        ensures { result ≡ self.fixed }
    {
        self.bits.contains(MapBits::FIXED)
    }

    /// Whether MAP_NORESERVE is set.
    pub fn noreserve(self) -> bool
        ensures { result ≡ self.noreserve }
    {
        self.bits.contains(MapBits::NORESERVE)
    }

    /// Whether MAP_ANONYMOUS is set.
    pub fn anonymous(self) -> bool
        ensures { result ≡ self.anonymous }
    {
        self.bits.contains(MapBits::ANONYMOUS)
    }
}
