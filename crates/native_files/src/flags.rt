//! The flags that a description keeps (fcntl(2)).
ghost use Rattle.std.specs.Prelude.{◌≡◌, ◌*◌, true};
ghost use Rattle.kernel_core.specs.Bits.{one_if};
ghost use Rattle.kernel_core.specs.inside.OpenBits.{open_bits};
ghost use Rattle.kernel_model.specs.Descriptions.{kept_flags, no_flags};

use bitflags::Flags;
use kernel_core::{Access, OpenBits, OpenFlags};

/// No flag but O_LARGEFILE.
pub(crate) fn with_largefile_alone(access: Access) -> OpenFlags
    ensures { result ≡ record (no_flags access) { largefile = true } }
{
    OpenFlags::new(access, OpenBits::LARGEFILE)
}

/// No flag but O_NONBLOCK, where it is asked for.
pub(crate) fn with_nonblock_alone(access: Access, nonblock: bool) -> OpenFlags
    ensures { result ≡ record (no_flags access) { nonblock = nonblock } }
{
    OpenFlags::new(
        access,
        OpenBits::from_bits_retain(bit_if(OpenBits::NONBLOCK, nonblock)),
    )
}

/// The flags with O_APPEND and O_NONBLOCK as they are given, and the others as they were.
pub(crate) fn with_append_and_nonblock(flags: OpenFlags, append: bool, nonblock: bool) -> OpenFlags
    ensures { result ≡ record flags { append = append; nonblock = nonblock } }
{
    OpenFlags::new(
        flags.access(),
        OpenBits::from_bits_retain(bits_with(flags, append, nonblock)),
    )
}

fn bits_with(flags: OpenFlags, append: bool, nonblock: bool) -> u16
    ensures { result ≡ open_bits (record flags { append = append; nonblock = nonblock }) }
{
    bit_if(OpenBits::APPEND, append)
        + bit_if(OpenBits::DSYNC, flags.dsync())
        + bit_if(OpenBits::NONBLOCK, nonblock)
        + bit_if(OpenBits::CREAT, flags.creat())
        + bit_if(OpenBits::TRUNC, flags.trunc())
        + bit_if(OpenBits::EXCL, flags.excl())
        + bit_if(OpenBits::NOCTTY, flags.noctty())
        + bit_if(OpenBits::LARGEFILE, flags.largefile())
        + bit_if(OpenBits::SYNC, flags.sync())
        + bit_if(OpenBits::DIRECTORY, flags.directory())
        + bit_if(OpenBits::NOFOLLOW, flags.nofollow())
        + bit_if(OpenBits::CLOEXEC, flags.cloexec())
}

/// The bit of a flag where it is set, and else 0.
fn bit_if(bit: OpenBits, set: bool) -> u16
    ensures { result ≡ bit.0 * one_if set }
{
    if set { bit.bits() } else { 0 }
}

/// Those flags that a description keeps of the ones with which it was opened (F_GETFL of fcntl(2)).
pub(crate) fn kept(flags: OpenFlags) -> OpenFlags
    ensures { result ≡ kept_flags flags }
{
    OpenFlags::new(flags.access(), OpenBits::from_bits_retain(kept_bits(flags)))
}

fn kept_bits(flags: OpenFlags) -> u16
    ensures { result ≡ open_bits (kept_flags flags) }
{
    bit_if(OpenBits::APPEND, flags.append())
        + bit_if(OpenBits::DSYNC, flags.dsync())
        + bit_if(OpenBits::NONBLOCK, flags.nonblock())
        + bit_if(OpenBits::LARGEFILE, flags.largefile())
        + bit_if(OpenBits::SYNC, flags.sync())
        + bit_if(OpenBits::DIRECTORY, flags.directory())
        + bit_if(OpenBits::NOFOLLOW, flags.nofollow())
}
