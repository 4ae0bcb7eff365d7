//! The codes of a siginfo (sigaction(2)).
ghost use Rattle.std.specs.Prelude.{◌≡◌};
ghost use Rattle.number_tables.specs.Codes as spec;

/// SI_USER: sent by kill(2), in both worlds.
pub const SI_USER: i32 = 0;

/// SI_KERNEL: sent by the kernel, in both worlds.
pub const SI_KERNEL: i32 = 0x80;

/// SI_QUEUE: sent by sigqueue(3), in both worlds.
pub const SI_QUEUE: i32 = -1;

/// SI_TKILL: sent by tkill(2) or tgkill(2), in both worlds.
pub const SI_TKILL: i32 = -6;

/// SI_TIMER: sent by a timer, for an o32 program.
pub const SI_TIMER: i32 = -3;

/// SI_MESGQ: sent for a message queue, for an o32 program.
const SI_MESGQ: i32 = -4;

/// SI_ASYNCIO: sent for asynchronous input and output, for an o32 program.
const SI_ASYNCIO: i32 = -2;

/// SI_TIMER natively.
const NATIVE_SI_TIMER: i32 = -2;

/// SI_MESGQ natively.
const NATIVE_SI_MESGQ: i32 = -3;

/// SI_ASYNCIO natively.
const NATIVE_SI_ASYNCIO: i32 = -4;

/// The native code of a code of an o32 program.
pub fn native_code(code: i32) -> i32
    ensures table { result ≡ spec.native_code code }
    ensures back { spec.o32_code result ≡ code }
{
    match code {
        SI_TIMER => NATIVE_SI_TIMER,
        SI_MESGQ => NATIVE_SI_MESGQ,
        SI_ASYNCIO => NATIVE_SI_ASYNCIO,
        same => same,
    }
}

/// The code for an o32 program of a native code.
pub fn o32_code(code: i32) -> i32
    ensures table { result ≡ spec.o32_code code }
    ensures back { spec.native_code result ≡ code }
{
    match code {
        NATIVE_SI_TIMER => SI_TIMER,
        NATIVE_SI_MESGQ => SI_MESGQ,
        NATIVE_SI_ASYNCIO => SI_ASYNCIO,
        same => same,
    }
}
