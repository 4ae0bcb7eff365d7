//! The machine of an o32 program over the 64-bit kernel, and one turn of it.
#![tactic(auto)]

mod calls;
mod emulator;
mod kept;
mod posting;
mod process;
mod process_core;
mod times;
mod turn;

pub use emulator::Emulator;
pub use kernel_core::{Event, Finish, NoMemory, Stop};
pub use turn::Turn;
