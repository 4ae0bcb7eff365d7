//! A run of an emulator for a budget, and the texts that it writes: its trace, its native log and its journal.
#![tactic(auto)]

mod forms;
pub mod laws;
mod lines;
mod records;
mod told;
mod untraced;

// Passed on, so that who runs an emulator names this crate alone.
pub use o32_machine::Emulator;
pub use told::{Names, Texts, run_told};
pub use untraced::{Ran, run};
