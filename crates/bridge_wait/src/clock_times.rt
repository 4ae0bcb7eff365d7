//! What is shown of a clock.
ghost use Rattle.std.specs.Prelude.{◌≡◌, ◌++◌, Some};
ghost use Rattle.byteorder.specs.Endian.{big_bytes};
ghost use Rattle.bridge_wait.specs.inside.Shown.{shown_of, spec_bytes, time_of, val_bytes};

use byteorder::{BigEndian, ByteOrder};
use kernel_core::Errno;

/// How many bytes a time has in the program's memory (struct timespec, struct timeval).
pub(crate) const PROGRAM_SIZE: usize = 8;

const NANOSECONDS_PER_SECOND: u64 = 1_000_000_000;

/// The last second that a time_t of 32 bits holds.
const LAST_SECOND: u64 = 0x7FFF_FFFF;

/// A time as a program is shown it.
#[derive(Clone, Copy)]
pub(crate) struct ClockTime {
    /// The low 32 bits of its seconds.
    pub(crate) seconds: u32,
    /// Below 10^9, where the time is one of the kernel's.
    pub(crate) nanoseconds: u32,
}

impl ClockTime {
    /// Of a time in nanoseconds.
    pub(crate) fn of(time: u64) -> ClockTime
        ensures { result ≡ time_of time }
    {
        ClockTime {
            seconds: (time / NANOSECONDS_PER_SECOND % (1 << 32)) as u32,
            nanoseconds: (time % NANOSECONDS_PER_SECOND) as u32,
        }
    }

    /// Its bytes in the program's memory, with nanoseconds (struct timespec).
    pub(crate) fn spec_bytes(self) -> [u8; PROGRAM_SIZE]
        ensures { result ≡ spec_bytes self }
    {
        two_words(self.seconds, self.nanoseconds)
    }

    /// The same with microseconds, rounded down (struct timeval).
    pub(crate) fn val_bytes(self) -> [u8; PROGRAM_SIZE]
        ensures { result ≡ val_bytes self }
    {
        two_words(self.seconds, self.nanoseconds / 1000)
    }
}

/// What a clock of CPU time shows, in nanoseconds: EOVERFLOW past second 2^31 - 1.
pub(crate) fn shown_of(time: u64) -> Result<ClockTime, Errno>
    ensures { result ≡ shown_of (Some time) }
{
    if time / NANOSECONDS_PER_SECOND > LAST_SECOND {
        return Err(Errno::EOVERFLOW);
    }
    Ok(ClockTime::of(time))
}

/// Two numbers, the first byte of each counting most.
fn two_words(first: u32, second: u32) -> [u8; PROGRAM_SIZE]
    ensures { result ≡ big_bytes 4 first ++ big_bytes 4 second }
{
    let mut bytes = [0; PROGRAM_SIZE];
    BigEndian::write_u32(&mut bytes, first);
    BigEndian::write_u32(&mut bytes[4..], second);
    bytes
}
