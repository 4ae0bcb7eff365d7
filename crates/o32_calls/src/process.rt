//! The small calls, on the process and the system.

/// A small call that asks the kernel, or the outside.
#[derive(Clone, Copy)]
pub enum SystemCall {
    /// getrlimit(2)
    Getrlimit,
    /// uname(2)
    Uname,
    /// prlimit(2)
    Prlimit64,
    /// getrandom(2)
    Getrandom,
}

/// A small call that asks the kernel for nothing.
#[derive(Clone, Copy)]
pub enum PlainCall {
    /// exit(2)
    Exit,
    /// getpid(2)
    Getpid,
    /// getuid(2)
    Getuid,
    /// getgid(2)
    Getgid,
    /// geteuid(2)
    Geteuid,
    /// getegid(2)
    Getegid,
    /// getppid(2)
    Getppid,
    /// cacheflush(2)
    Cacheflush,
    /// sched_yield(2)
    SchedYield,
    /// gettid(2)
    Gettid,
    /// exit_group(2)
    ExitGroup,
    /// set_tid_address(2)
    SetTidAddress,
    /// set_thread_area(2)
    SetThreadArea,
    /// set_robust_list(2)
    SetRobustList,
}
