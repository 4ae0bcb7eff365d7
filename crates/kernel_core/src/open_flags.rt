//! The flags of open(2).
ghost use Rattle.std.specs.Prelude.{⊤, ◌≡◌, ◌<◌, [], ◌∷◌, codes};
ghost use Rattle.kernel_core.specs.OpenSet.{open_set};

use bitflags::{Flag, Flags, bitflag_items};
use std::marker::Model;

/// What a description may be used for: the access mode of open(2).
#[derive(Clone, Copy, PartialEq, Eq)]
pub enum Access {
    /// O_RDONLY.
    Read,
    /// O_WRONLY.
    Write,
    /// O_RDWR.
    ReadWrite,
}

/// The bits in which [`OpenFlags`] are kept, each by its name in open(2) without the prefix
/// `O_`.
///
/// Their places are this project's own: what number a flag has for an o32 program and for the native
/// kernel is told by `number_tables`.
#[derive(Clone, Copy, PartialEq, Eq)]
pub struct OpenBits(u16);

bitflag_items! {
    impl OpenBits: u16 {
        const APPEND = 1;
        const DSYNC = 2;
        const NONBLOCK = 4;
        const CREAT = 8;
        const TRUNC = 16;
        const EXCL = 32;
        const NOCTTY = 64;
        const LARGEFILE = 128;
        const SYNC = 256;
        const DIRECTORY = 512;
        const NOFOLLOW = 1024;
        const CLOEXEC = 2048;
    }
}

impl Flags for OpenBits {
    type Bits = u16;

    ghost exact = { ⊤ };

    ghost table = { (codes "APPEND", 1) ∷ (codes "DSYNC", 2) ∷ (codes "NONBLOCK", 4) ∷ (codes "CREAT", 8) ∷ (codes "TRUNC", 16) ∷ (codes "EXCL", 32) ∷ (codes "NOCTTY", 64) ∷ (codes "LARGEFILE", 128) ∷ (codes "SYNC", 256) ∷ (codes "DIRECTORY", 512) ∷ (codes "NOFOLLOW", 1024) ∷ (codes "CLOEXEC", 2048) ∷ [] };

    ghost set_of = { λ bits. bits.0 };

    fn flags<'a>() -> &'a [Flag<OpenBits>] {
        OpenBits::FLAGS
    }

    fn bits(&self) -> u16 {
        self.0
    }

    fn from_bits_retain(bits: u16) -> OpenBits {
        OpenBits(bits)
    }
}

/// The access mode and the flags of open(2).
///
/// A contract sees the mode and which flags are set, and no bit without a name. `sync` is the own bit of
/// O_SYNC, which stands beside that of O_DSYNC in every number that open(2) knows.
#[derive(Clone, Copy)]
pub struct OpenFlags {
    access: Access,
    bits: OpenBits,
}

impl Model for OpenFlags {
    ghost use Rattle.std.specs.Prelude.{◌<◌};
    ghost use Rattle.kernel_core.specs.OpenSet.{OpenSet, open_set};
    ghost use Rattle.kernel_core.specs.inside.OpenBits.{open_bits, open_bits_again};

    ghost Value = { OpenSet };

    ghost view = { λ flags. open_set flags.access flags.bits.0 };

    ghost invariant = { λ flags. flags.bits.0 < 4096 };

    ghost inverse = { λ set. record { access = set.access; bits = record { 0 = open_bits set } } };

    ghost inverse_ok = { λ flags small. λ i. record { access = flags.access; bits = record { 0 = open_bits_again flags.access flags.bits.0 small i } } };
}

#[tactic(auto, using(crate::proofs::FlagBits::one_flag))]
impl OpenFlags {
    /// The access mode with these flags, without the bits that have no name.
    pub fn new(access: Access, bits: OpenBits) -> OpenFlags
        ensures { result ≡ open_set access bits.0 }
    {
        OpenFlags {
            access,
            bits: OpenBits::from_bits_truncate(bits.0),
        }
    }

    /// The access mode.
    pub fn access(self) -> Access
        ensures { result ≡ self.access }
    {
        self.access
    }

    /// The flags as bits, none of which is without a name.
    pub fn bits(self) -> OpenBits
        ensures flags { open_set self.access result.0 ≡ self }
        ensures named { result.0 < 4096 }
    {
        self.bits
    }

    /// Whether O_APPEND is set.
    pub fn append(self) -> bool
        ensures { result ≡ self.append }
    {
        self.bits.contains(OpenBits::APPEND)
    }

    /// Whether O_DSYNC is set.
    pub fn dsync(self) -> bool
        ensures { result ≡ self.dsync }
    {
        self.bits.contains(OpenBits::DSYNC)
    }

    /// Whether O_NONBLOCK is set.
    pub fn nonblock(self) -> bool
        ensures { result ≡ self.nonblock }
    {
        self.bits.contains(OpenBits::NONBLOCK)
    }

    /// Whether O_CREAT is set.
    pub fn creat(self) -> bool
        ensures { result ≡ self.creat }
    {
        self.bits.contains(OpenBits::CREAT)
    }

    /// Whether O_TRUNC is set.
    pub fn trunc(self) -> bool
        ensures { result ≡ self.trunc }
    {
        self.bits.contains(OpenBits::TRUNC)
    }

    /// Whether O_EXCL is set.
    pub fn excl(self) -> bool
        ensures { result ≡ self.excl }
    {
        self.bits.contains(OpenBits::EXCL)
    }

    /// Whether O_NOCTTY is set.
    pub fn noctty(self) -> bool
        ensures { result ≡ self.noctty }
    {
        self.bits.contains(OpenBits::NOCTTY)
    }

    /// Whether O_LARGEFILE is set.
    pub fn largefile(self) -> bool
        ensures { result ≡ self.largefile }
    {
        self.bits.contains(OpenBits::LARGEFILE)
    }

    /// Whether O_SYNC is set: the own bit of O_SYNC, beside O_DSYNC.
    pub fn sync(self) -> bool
        ensures { result ≡ self.sync }
    {
        self.bits.contains(OpenBits::SYNC)
    }

    /// Whether O_DIRECTORY is set.
    pub fn directory(self) -> bool
        ensures { result ≡ self.directory }
    {
        self.bits.contains(OpenBits::DIRECTORY)
    }

    /// Whether O_NOFOLLOW is set.
    pub fn nofollow(self) -> bool
        ensures { result ≡ self.nofollow }
    {
        self.bits.contains(OpenBits::NOFOLLOW)
    }

    /// Whether O_CLOEXEC is set.
    pub fn cloexec(self) -> bool
        ensures { result ≡ self.cloexec }
    {
        self.bits.contains(OpenBits::CLOEXEC)
    }
}
