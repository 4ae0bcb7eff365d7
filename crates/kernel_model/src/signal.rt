//! Signals as the kernel keeps them (signal(7), sigaction(2), sigaltstack(2)).
//!
//! A set of signals is four words of 32 bits, with a bit for each signal in the order in which
//! `kernel_core` names them: the first word holds those of the first 32, its lowest bit that of HUP.
//! (The form is this project's own.)

use kernel_core::SaFlags;

/// What is done when a signal is delivered.
#[derive(Clone, Copy)]
pub struct Action {
    /// 0 for the default action, 1 to ignore the signal, else the address of a handler.
    pub handler: u64,
    pub flags: SaFlags,
    /// The signals that are blocked while the handler runs.
    pub mask: [u32; 4],
}

/// The alternate signal stack.
#[derive(Clone, Copy)]
pub struct SigStack {
    /// Where it begins, and 0 where it is disabled.
    pub sp: u64,
    /// Its size in bytes, and 0 where it is disabled.
    pub size: u64,
    /// 0, SS_ONSTACK (1) or SS_DISABLE (2).
    pub flags: u32,
}

/// What became of a posted signal.
#[derive(Clone, Copy)]
pub enum Post {
    /// It pends.
    Queued,
    /// It was dropped: it is ignored, or pends already.
    Dropped,
    /// It was dropped, since as many real-time signals as may pend do.
    Full,
}
