//! The frames of signal handlers: what stands on the stack while a handler runs, and what its return
//! reads there. (The layouts of frames and their places are this project's own.)
#![tactic(auto)]

mod reading;
mod values;
mod writing;

pub use reading::{read_frame, read_rt_frame};
pub use writing::{write_frame, write_rt_frame};

/// An alternate stack, as sigaltstack(2) shows it.
#[derive(Clone, Copy, PartialEq, Eq)]
pub struct AltStack {
    /// Its first address.
    pub sp: u32,
    /// In bytes.
    pub size: u32,
    /// SS_ONSTACK 1, SS_DISABLE 2.
    pub flags: u32,
}

/// What rt_sigreturn reads beside the registers.
#[derive(Clone, Copy, PartialEq, Eq)]
pub struct Return {
    /// The mask, signal 1 the lowest bit of the first word; KILL and STOP are in none.
    pub mask: [u32; 4],
    /// The alternate stack.
    pub stack: AltStack,
}

/// The number of the stack pointer among the registers (System V ABI, MIPS supplement).
const STACK_POINTER: u8 = 29;

#[cfg(test)]
mod tests;
