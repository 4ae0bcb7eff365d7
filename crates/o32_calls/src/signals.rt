//! The calls on signals.

/// A call on signals, but for the one that accepts a signal.
#[derive(Clone, Copy)]
pub enum SignalCall {
    /// pause(2)
    Pause,
    /// kill(2)
    Kill,
    /// sigreturn(2)
    Sigreturn,
    /// rt_sigreturn, as in sigreturn(2)
    RtSigreturn,
    /// rt_sigaction, as in sigaction(2)
    RtSigaction,
    /// rt_sigprocmask, as in sigprocmask(2)
    RtSigprocmask,
    /// rt_sigpending, as in sigpending(2)
    RtSigpending,
    /// rt_sigqueueinfo(2)
    RtSigqueueinfo,
    /// rt_sigsuspend, as in sigsuspend(2)
    RtSigsuspend,
    /// sigaltstack(2)
    Sigaltstack,
    /// tkill(2)
    Tkill,
    /// restart_syscall(2)
    RestartSyscall,
    /// tgkill(2)
    Tgkill,
}
