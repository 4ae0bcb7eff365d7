//! The events of poll(2).
ghost use Rattle.std.specs.Prelude.{⊤, ◌≡◌, ◌<◌, [], ◌∷◌, codes};
ghost use Rattle.kernel_core.specs.PollSet.{poll_set};

use bitflags::{Flag, Flags, bitflag_items};
use std::marker::Model;

/// The bits in which [`PollBits`] are kept, each by its name in poll(2) without the prefix
/// `POLL`.
///
/// Their places are this project's own: what number a flag has for an o32 program and for the native
/// kernel is told by `number_tables`.
#[derive(Clone, Copy, PartialEq, Eq)]
pub struct EventBits(u16);

bitflag_items! {
    impl EventBits: u16 {
        const IN = 1;
        const PRI = 2;
        const OUT = 4;
        const ERR = 8;
        const HUP = 16;
        const NVAL = 32;
        const RDNORM = 64;
        const RDBAND = 128;
        const WRNORM = 256;
        const WRBAND = 512;
    }
}

impl Flags for EventBits {
    type Bits = u16;

    ghost exact = { ⊤ };

    ghost table = { (codes "IN", 1) ∷ (codes "PRI", 2) ∷ (codes "OUT", 4) ∷ (codes "ERR", 8) ∷ (codes "HUP", 16) ∷ (codes "NVAL", 32) ∷ (codes "RDNORM", 64) ∷ (codes "RDBAND", 128) ∷ (codes "WRNORM", 256) ∷ (codes "WRBAND", 512) ∷ [] };

    ghost set_of = { λ bits. bits.0 };

    fn flags<'a>() -> &'a [Flag<EventBits>] {
        EventBits::FLAGS
    }

    fn bits(&self) -> u16 {
        self.0
    }

    fn from_bits_retain(bits: u16) -> EventBits {
        EventBits(bits)
    }
}

/// A set of the events of poll(2): those that are asked for, or those that are there.
///
/// A contract sees which events there are, and no bit without a name.
#[derive(Clone, Copy, PartialEq, Eq)]
#[tactic(auto, using(crate::specs::inside::EventBits::poll_bits_of))]
pub struct PollBits {
    bits: EventBits,
}

impl Model for PollBits {
    ghost use Rattle.std.specs.Prelude.{◌<◌};
    ghost use Rattle.kernel_core.specs.PollSet.{PollSet, poll_set};
    ghost use Rattle.kernel_core.specs.inside.EventBits.{poll_bits, poll_bits_again};

    ghost Value = { PollSet };

    ghost view = { λ flags. poll_set flags.bits.0 };

    ghost invariant = { λ flags. flags.bits.0 < 1024 };

    ghost inverse = { λ set. record { bits = record { 0 = poll_bits set } } };

    ghost inverse_ok = { λ flags small. λ i. record { bits = record { 0 = poll_bits_again flags.bits.0 small i } } };
}

#[tactic(auto, using(crate::proofs::FlagBits::one_flag))]
impl PollBits {
    /// The set of these events, without the bits that have no name.
    pub fn new(bits: EventBits) -> PollBits
        ensures { result ≡ poll_set bits.0 }
    {
        PollBits {
            bits: EventBits::from_bits_truncate(bits.0),
        }
    }

    /// The flags as bits, none of which is without a name.
    pub fn bits(self) -> EventBits
        ensures flags { poll_set result.0 ≡ self }
        ensures named { result.0 < 1024 }
    {
        self.bits
    }

    /// Whether POLLIN is set.
    pub fn input(self) -> bool
        ensures { result ≡ self.input }
    {
        self.bits.contains(EventBits::IN)
    }

    /// Whether POLLPRI is set.
    pub fn pri(self) -> bool
        ensures { result ≡ self.pri }
    {
        self.bits.contains(EventBits::PRI)
    }

    /// Whether POLLOUT is set.
    pub fn output(self) -> bool
        ensures { result ≡ self.output }
    {
        self.bits.contains(EventBits::OUT)
    }

    /// Whether POLLERR is set.
    pub fn err(self) -> bool
        ensures { result ≡ self.err }
    {
        self.bits.contains(EventBits::ERR)
    }

    /// Whether POLLHUP is set.
    pub fn hup(self) -> bool
        ensures { result ≡ self.hup }
    {
        self.bits.contains(EventBits::HUP)
    }

    /// Whether POLLNVAL is set: the descriptor is not open.
    pub fn nval(self) -> bool
        ensures { result ≡ self.nval }
    {
        self.bits.contains(EventBits::NVAL)
    }

    /// Whether POLLRDNORM is set.
    pub fn rdnorm(self) -> bool
        ensures { result ≡ self.rdnorm }
    {
        self.bits.contains(EventBits::RDNORM)
    }

    /// Whether POLLRDBAND is set.
    pub fn rdband(self) -> bool
        ensures { result ≡ self.rdband }
    {
        self.bits.contains(EventBits::RDBAND)
    }

    /// Whether POLLWRNORM is set.
    pub fn wrnorm(self) -> bool
        ensures { result ≡ self.wrnorm }
    {
        self.bits.contains(EventBits::WRNORM)
    }

    /// Whether POLLWRBAND is set.
    pub fn wrband(self) -> bool
        ensures { result ≡ self.wrband }
    {
        self.bits.contains(EventBits::WRBAND)
    }
}
