//! Instructions of a MIPS32 processor over guest memory.
#![tactic(auto)]

mod accumulator;
mod arithmetic;
mod codes;
mod computing;
mod control;
mod cpu;
mod effect;
mod execution;
mod jumps;
mod memory;
mod running;
mod table;
mod transfers;
mod traps;

pub use cpu::{Cpu, Slot};
pub use execution::{Stepped, step};
pub use kernel_core::NoMemory;
pub use running::{Ran, run};
