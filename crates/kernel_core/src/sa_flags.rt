//! The flags of sigaction(2).
ghost use Rattle.std.specs.Prelude.{⊤, ◌≡◌, ◌<◌, [], ◌∷◌, codes};
ghost use Rattle.kernel_core.specs.SaSet.{sa_set};

use bitflags::{Flag, Flags, bitflag_items};
use std::marker::Model;

/// The bits in which [`SaFlags`] are kept, each by its name in sigaction(2) without the prefix
/// `SA_`.
///
/// Their places are this project's own: what number a flag has for an o32 program and for the native
/// kernel is told by `number_tables`.
#[derive(Clone, Copy, PartialEq, Eq)]
pub struct SaBits(u8);

bitflag_items! {
    impl SaBits: u8 {
        const NOCLDSTOP = 1;
        const SIGINFO = 2;
        const NOCLDWAIT = 4;
        const ONSTACK = 8;
        const RESTART = 16;
        const NODEFER = 32;
        const RESETHAND = 64;
    }
}

impl Flags for SaBits {
    type Bits = u8;

    ghost exact = { ⊤ };

    ghost table = { (codes "NOCLDSTOP", 1) ∷ (codes "SIGINFO", 2) ∷ (codes "NOCLDWAIT", 4) ∷ (codes "ONSTACK", 8) ∷ (codes "RESTART", 16) ∷ (codes "NODEFER", 32) ∷ (codes "RESETHAND", 64) ∷ [] };

    ghost set_of = { λ bits. bits.0 };

    fn flags<'a>() -> &'a [Flag<SaBits>] {
        SaBits::FLAGS
    }

    fn bits(&self) -> u8 {
        self.0
    }

    fn from_bits_retain(bits: u8) -> SaBits {
        SaBits(bits)
    }
}

/// A set of the flags of sigaction(2).
///
/// A contract sees which flags are set, and no bit without a name.
#[derive(Clone, Copy, PartialEq, Eq)]
#[tactic(auto, using(crate::specs::inside::SaBits::sa_bits_of))]
pub struct SaFlags {
    bits: SaBits,
}

impl Model for SaFlags {
    ghost use Rattle.std.specs.Prelude.{◌<◌};
    ghost use Rattle.kernel_core.specs.SaSet.{SaSet, sa_set};
    ghost use Rattle.kernel_core.specs.inside.SaBits.{sa_bits, sa_bits_again};

    ghost Value = { SaSet };

    ghost view = { λ flags. sa_set flags.bits.0 };

    ghost invariant = { λ flags. flags.bits.0 < 128 };

    ghost inverse = { λ set. record { bits = record { 0 = sa_bits set } } };

    ghost inverse_ok = { λ flags small. λ i. record { bits = record { 0 = sa_bits_again flags.bits.0 small i } } };
}

#[tactic(auto, using(crate::proofs::FlagBits::one_flag))]
impl SaFlags {
    /// The set of these flags, without the bits that have no name.
    pub fn new(bits: SaBits) -> SaFlags
        ensures { result ≡ sa_set bits.0 }
    {
        SaFlags {
            bits: SaBits::from_bits_truncate(bits.0),
        }
    }

    /// The flags as bits, none of which is without a name.
    pub fn bits(self) -> SaBits
        ensures flags { sa_set result.0 ≡ self }
        ensures named { result.0 < 128 }
    {
        self.bits
    }

    /// Whether SA_NOCLDSTOP is set.
    pub fn nocldstop(self) -> bool
        ensures { result ≡ self.nocldstop }
    {
        self.bits.contains(SaBits::NOCLDSTOP)
    }

    /// Whether SA_SIGINFO is set.
    pub fn siginfo(self) -> bool
        ensures { result ≡ self.siginfo }
    {
        self.bits.contains(SaBits::SIGINFO)
    }

    /// Whether SA_NOCLDWAIT is set.
    pub fn nocldwait(self) -> bool
        ensures { result ≡ self.nocldwait }
    {
        self.bits.contains(SaBits::NOCLDWAIT)
    }

    /// Whether SA_ONSTACK is set.
    pub fn onstack(self) -> bool
        ensures { result ≡ self.onstack }
    {
        self.bits.contains(SaBits::ONSTACK)
    }

    /// Whether SA_RESTART is set.
    pub fn restart(self) -> bool
        ensures { result ≡ self.restart }
    {
        self.bits.contains(SaBits::RESTART)
    }

    /// Whether SA_NODEFER is set.
    pub fn nodefer(self) -> bool
        ensures { result ≡ self.nodefer }
    {
        self.bits.contains(SaBits::NODEFER)
    }

    /// Whether SA_RESETHAND is set.
    pub fn resethand(self) -> bool
        ensures { result ≡ self.resethand }
    {
        self.bits.contains(SaBits::RESETHAND)
    }
}
