//! The size of a set of signals (Linux `include/uapi/asm-generic/signal.h`).

/// The size of a set of signals, in bytes, in both worlds.
pub(crate) const SIGSETSIZE: u64 = 16;
