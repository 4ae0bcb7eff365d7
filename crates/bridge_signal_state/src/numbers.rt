//! A change of the mask, and the sizes of native structures (Linux `include/uapi/asm-generic/signal.h` and `siginfo.h`).

/// SIG_SETMASK: the mask becomes the set.
pub(crate) const SIG_SETMASK: u64 = 2;

/// The size of a set, in bytes.
pub(crate) const SET_SIZE: usize = 16;

/// The same, as an argument.
pub(crate) const SIGSETSIZE: u64 = 16;

pub(crate) const ACTION_SIZE: u32 = 32;

pub(crate) const STACK_SIZE: usize = 24;

pub(crate) const INFO_SIZE: u64 = 128;
