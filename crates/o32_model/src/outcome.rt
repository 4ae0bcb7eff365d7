//! What a call comes to.

use crate::wait::Wait;
use kernel_core::Errno;

/// What a call comes to (syscall(2); the form is this project's own).
#[derive(Clone, Copy)]
pub enum Outcome {
    /// It returns with this result in $v0, and 0 in $a3.
    Value(u32),
    /// It returns with two results, in $v0 and $v1, and 0 in $a3 (pipe(2) on MIPS).
    Pair(u32, u32),
    /// It returns with the number of this error in $v0, and 1 in $a3.
    Error(Errno),
    /// It waits.
    Sleep(Wait),
    /// The registers are those of a signal's frame (sigreturn(2)), and nothing is returned.
    Frame,
    /// The frame of a signal's handler can't be read (sigreturn(2)): nothing is returned, and the process
    /// meets a fault.
    BadFrame,
    /// The process ends with this status (exit(2)).
    Exit(u8),
}
