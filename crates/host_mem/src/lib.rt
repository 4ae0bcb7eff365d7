//! Host memory: the bytes of the structures that a call of the native kernel is handed.
#![tactic(auto)]

mod memory;
mod part;

pub use kernel_core::NoMemory;
pub use memory::{FIRST_ADDRESS, HostMem};

#[cfg(test)]
mod tests;
