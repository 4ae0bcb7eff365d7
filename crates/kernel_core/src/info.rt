//! What is known of a signal that was sent.

use crate::signal::Sig;

/// What is known of a signal that was sent, as a handler is told it in its `siginfo_t` (sigaction(2)).
///
/// Where `addr` is not 0 it is that of a fault, and errno, pid, uid and value are 0. In every other
/// `addr` is 0.
#[derive(Clone, Copy)]
pub struct Info {
    /// The signal (`si_signo`).
    pub sig: Sig,
    /// Why it was sent (`si_code`), by its number for an o32 program.
    pub code: i32,
    /// The error that goes with it (`si_errno`), 0 for none.
    pub errno: i32,
    /// The process that sent it (`si_pid`).
    pub pid: u32,
    /// The user of that process (`si_uid`).
    pub uid: u32,
    /// The value that it was sent with (`si_value`).
    pub value: u32,
    /// The address that a fault met (`si_addr`).
    pub addr: u32,
}
