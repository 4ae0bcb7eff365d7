//! What happens in a run, as its trace tells it.

use crate::signal::Sig;

/// What became of a signal that was taken from those that pend (signal(7)).
#[derive(Clone, Copy, PartialEq, Eq)]
pub enum Delivery {
    /// A handler begins.
    Handler,
    /// It is ignored.
    Ignored,
    /// It stops the process.
    Stop,
}

/// What happens in a turn, with the columns of its line in the trace. (The trace is this project's
/// own.)
///
/// Calls, arguments and results are words of an o32 program: `nr` is $v0 at the SYSCALL and `args` are
/// $a0 to $a3 there; `v0` and `a3` are the registers after the call, `a3` being 1 where it failed.
#[derive(Drop)]
pub enum Event {
    /// A signal was posted by the schedule or a timer, also where it was dropped as ignored or as
    /// pending already.
    Post {
        sig: Sig,
    },
    /// A signal was dropped, because as many are queued as may be.
    Dropped {
        sig: Sig,
    },
    /// A stopped process goes on.
    Cont,
    /// An instruction met a fault: its signal, the code (`si_code`) and the address (`si_addr`).
    Fault {
        sig: Sig,
        code: u32,
        addr: u32,
    },
    /// A signal that was posted is delivered.
    Signal {
        sig: Sig,
        delivery: Delivery,
    },
    /// A call sleeps.
    Wait {
        nr: u32,
        args: [u32; 4],
    },
    /// A wait ended, by its result or by EINTR.
    Done {
        v0: u32,
        a3: u32,
    },
    /// The call is made again: pc was put back to its SYSCALL, with this number in $v0.
    Restart {
        nr: u32,
    },
    /// A call ended at once.
    Call {
        nr: u32,
        args: [u32; 4],
        v0: u32,
        a3: u32,
    },
    /// sigreturn or rt_sigreturn read its frame.
    Return,
    /// The guest exited with this status.
    Exit {
        status: u8,
    },
    /// A signal killed the guest.
    Killed {
        sig: Sig,
    },
    /// The budget's turns are done.
    Budget,
    /// The guest waits for what can't come.
    Blocked,
}
