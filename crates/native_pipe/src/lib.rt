//! The bytes of a pipe, in a ring.
#![tactic(auto)]

mod pipe;

pub use kernel_core::NoMemory;
pub use pipe::{PIPE_SIZE, Pipe};

#[cfg(test)]
mod tests;
