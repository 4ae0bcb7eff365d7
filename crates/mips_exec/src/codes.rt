//! The codes of the processor's signals: Linux's asm-generic/siginfo.h where a name of it stands behind the code; which
//! signal and code comes for what is this project's own where `specs/Step.antt` and `specs/Traps.antt` say so.

/// SIGILL: there is no such instruction (ILL_ILLOPC).
pub const ILLEGAL: u32 = 1;

/// SIGFPE: a division by zero (FPE_INTDIV).
pub const DIVISION_BY_ZERO: u32 = 1;

/// SIGFPE: an integer overflow (FPE_INTOVF).
pub const INTEGER_OVERFLOW: u32 = 2;

/// SIGTRAP: BREAK (TRAP_BRKPT).
pub const BREAKPOINT: u32 = 1;

/// SIGTRAP: a trap instruction (SI_KERNEL).
pub const TRAP: u32 = 0x80;

/// SIGSEGV: no page is mapped there (SEGV_MAPERR).
pub const ABSENT: u32 = 1;

/// SIGSEGV: the page's protection doesn't allow it (SEGV_ACCERR).
pub const FORBIDDEN: u32 = 2;

/// SIGBUS: an unaligned address, or one past user space (BUS_ADRALN).
pub const BAD_ADDRESS: u32 = 1;
