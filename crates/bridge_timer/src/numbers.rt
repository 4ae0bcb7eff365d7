//! The number of the timer (Linux `include/uapi/linux/time.h`), the same in both worlds.

/// The timer of real time, which is the only one that is there.
pub(crate) const ITIMER_REAL: u32 = 0;
