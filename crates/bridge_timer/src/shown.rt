//! What is shown of the timer.
ghost use Rattle.std.specs.Prelude.{◌≡◌};
ghost use Rattle.bridge_timer.specs.inside.Shown.{shown_bytes};

use byteorder::{BigEndian, ByteOrder};

/// How many bytes a value of the timer has in the program's memory (struct itimerval of setitimer(2)).
pub(crate) const PROGRAM_SIZE: usize = 16;

/// A time as a program is shown it.
#[derive(Clone, Copy)]
pub(crate) struct MicroTime {
    /// The low 32 bits of its seconds.
    pub(crate) seconds: u32,
    /// Below 10^6, where the time is one of the kernel's.
    pub(crate) microseconds: u32,
}

/// The timer as a program is shown it.
#[derive(Clone, Copy)]
pub(crate) struct Shown {
    /// Its period, and 0 where it has none.
    pub(crate) period: MicroTime,
    /// How long until it goes off, and 0 where it is not armed.
    pub(crate) left: MicroTime,
}

impl Shown {
    /// Its bytes in the program's memory: of each number the first counts most.
    pub(crate) fn bytes(self) -> [u8; PROGRAM_SIZE]
        ensures { result ≡ shown_bytes self }
    {
        let mut bytes = [0; PROGRAM_SIZE];
        BigEndian::write_u32(&mut bytes, self.period.seconds);
        BigEndian::write_u32(&mut bytes[4..], self.period.microseconds);
        BigEndian::write_u32(&mut bytes[8..], self.left.seconds);
        BigEndian::write_u32(&mut bytes[12..], self.left.microseconds);
        bytes
    }
}
