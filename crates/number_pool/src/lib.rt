//! Which of so many places, a power of two, are taken, and the least free one in a logarithm of steps.
#![tactic(auto)]

mod pool;
mod search;
mod tree;
mod words;

pub use kernel_core::NoMemory;
pub use pool::NumberPool;

#[cfg(test)]
mod tests;
