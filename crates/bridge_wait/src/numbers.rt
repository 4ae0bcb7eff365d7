//! Numbers of clocks, and a flag (Linux `include/uapi/linux/time.h`), the same in both worlds.

pub(crate) const CLOCK_REALTIME: u32 = 0;

pub(crate) const CLOCK_MONOTONIC: u32 = 1;

pub(crate) const CLOCK_PROCESS_CPUTIME_ID: u32 = 2;

pub(crate) const CLOCK_THREAD_CPUTIME_ID: u32 = 3;

pub(crate) const CLOCK_REALTIME_COARSE: u32 = 5;

pub(crate) const TIMER_ABSTIME: u64 = 1;
