//! Limits by name.

/// What a limit is kept for, by the names of getrlimit(2) without their prefix `RLIMIT_`.
#[derive(Clone, Copy, PartialEq, Eq)]
pub enum Resource {
    Cpu,
    Fsize,
    Data,
    Stack,
    Core,
    Nofile,
    As,
    Rss,
    Nproc,
    Memlock,
    Locks,
    Sigpending,
    Msgqueue,
    Nice,
    Rtprio,
    Rttime,
}
