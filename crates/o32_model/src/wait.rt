//! Calls that wait, and how a wait ends. (The forms are this project's own.)

use kernel_core::Errno;

/// A call that waits.
#[derive(Clone, Copy)]
pub struct Wait {
    /// The call's number, as it was in $v0.
    pub nr: u32,
    /// Its first six argument words, with 0 for one that can't be read.
    pub words: [u32; 6],
    /// When it ends at the latest, in nanoseconds of the clock; None where it may wait without end.
    pub deadline: Option<u64>,
    /// How many bytes a write to a pipe has put already; 0 for any other call.
    pub done: u32,
    /// The mask that is put back when the wait ends, where the call has set one of its own
    /// (sigsuspend(2)); a bit for each signal, the lowest of the first word for signal 1.
    pub mask: Option<[u32; 4]>,
}

/// What a call sees of the machine beside registers and memory.
#[derive(Clone, Copy)]
pub struct Seen {
    /// The nanoseconds of the turns in which an instruction was executed, which the clocks of CPU time
    /// read (clock_gettime(2)).
    pub quanta: u64,
    /// The wait that restart_syscall(2) goes on with; None where there is none.
    pub restart: Option<Wait>,
}

/// Why a wait ends.
#[derive(Clone, Copy)]
pub enum Cause {
    /// Its deadline has come.
    Due,
    /// A signal that rt_sigtimedwait(2) waits for pends.
    Accepted,
    /// A signal's handler is to run.
    Handler,
    /// The process was stopped by a signal and goes on.
    Stopped,
}

/// How a wait ends.
#[derive(Clone, Copy)]
pub enum Close {
    /// The call returns with this result.
    Value(u32),
    /// The call returns with this error.
    Error(Errno),
    /// The call is carried out again.
    Again,
    /// The call goes on by restart_syscall(2).
    Restart,
}
