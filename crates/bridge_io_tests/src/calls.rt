//! Calls of an o32 program in rows: a number and arguments, and what comes of them.
ghost use Rattle.std.specs.Prelude.{◌≡◌};
ghost use Rattle.o32_calls.specs.Numbers.{io_number};

use kernel_core::Errno;
use o32_calls::IoCall;
use o32_model::CallWords;

/// A call by its name; one at a place with the two words of that, the high one first, of which each may be one
/// that can't be read.
#[derive(Clone, Copy)]
pub(crate) enum Call {
    Read,
    Write,
    Close,
    Dup,
    Pipe,
    Ioctl,
    Fcntl,
    Dup2,
    Readv,
    Writev,
    Pread64(Option<u32>, Option<u32>),
    Pwrite64(Option<u32>, Option<u32>),
    Fcntl64,
    Dup3,
    Pipe2,
}

impl Call {
    /// Its name and its number (Linux `arch/mips/include/uapi/asm/unistd.h`, the o32 table).
    fn named(self) -> (IoCall, u32)
        ensures { result.1 ≡ io_number result.0 }
    {
        match self {
            Call::Read => (IoCall::Read, 4003),
            Call::Write => (IoCall::Write, 4004),
            Call::Close => (IoCall::Close, 4006),
            Call::Dup => (IoCall::Dup, 4041),
            Call::Pipe => (IoCall::Pipe, 4042),
            Call::Ioctl => (IoCall::Ioctl, 4054),
            Call::Fcntl => (IoCall::Fcntl, 4055),
            Call::Dup2 => (IoCall::Dup2, 4063),
            Call::Readv => (IoCall::Readv, 4145),
            Call::Writev => (IoCall::Writev, 4146),
            Call::Pread64(_, _) => (IoCall::Pread64, 4200),
            Call::Pwrite64(_, _) => (IoCall::Pwrite64, 4201),
            Call::Fcntl64 => (IoCall::Fcntl64, 4220),
            Call::Dup3 => (IoCall::Dup3, 4327),
            Call::Pipe2 => (IoCall::Pipe2, 4328),
        }
    }

    /// Its words on the stack.
    fn stack(self) -> [Option<u32>; 4] {
        match self {
            Call::Pread64(high, low) | Call::Pwrite64(high, low) => [high, low, None, None],
            _ => [None; 4],
        }
    }

    /// Its name and its words, with these arguments in registers.
    pub(crate) fn words(self, arguments: [u32; 3]) -> (IoCall, CallWords)
        ensures { result.1.nr ≡ io_number result.0 }
    {
        let [first, second, third] = arguments;
        let (name, nr) = self.named();
        let words = CallWords {
            nr,
            reg: [first, second, third, 0],
            stack: self.stack(),
        };
        (name, words)
    }
}

/// What is done, or looked at.
#[derive(Clone, Copy)]
pub(crate) enum Row {
    /// A call by its first three arguments, and its result.
    Gives(Call, [u32; 3], u32),
    /// One, and its two results.
    GivesTwo(Call, [u32; 3], u32, u32),
    /// One, and its error.
    Fails(Call, [u32; 3], Errno),
    /// One that waits, and how many bytes it has written already.
    Waits(Call, [u32; 3], u32),
    /// dup(2) of standard input gives each descriptor from 3 on.
    OpensAll,
    /// The program stores these bytes.
    Puts(u32, &'static [u8]),
    /// The program's memory has these bytes.
    Holds(u32, &'static [u8]),
    /// These bytes were written to standard output, and these to standard error.
    Written(&'static [u8], &'static [u8]),
    /// Whether a signal pends that is not blocked.
    Signalled(bool),
    /// The next effect that is kept: these bytes are written from an address on.
    Stores(u32, &'static [u8]),
    /// The next effect that is kept: these bytes go out on stream 1 or 2.
    Sends(u8, &'static [u8]),
    /// No other effect is kept.
    NoEffect,
    /// A call of the 64-bit kernel itself, by its number and its first four arguments, with these bytes in host
    /// memory; and its result.
    Native(u64, [u64; 4], &'static [u8], i64),
    /// The 64-bit kernel itself writes one byte to each of so many first blocks of an open file.
    Fills(u64, u32),
}
