//! Signals as the native kernel keeps them: their actions, the mask, what pends, and the alternate
//! stack (signal(7)).
#![tactic(auto)]

pub mod laws;
mod pending;
mod places;
mod queue;
mod sets;
mod signals;

pub use kernel_core::NoMemory;
pub use signals::Signals;

#[cfg(test)]
mod tests;
