//! Sets of signals in both worlds.
#![tactic(auto)]

pub mod laws;
mod sets;

pub use sets::{of_native, to_native};

#[cfg(test)]
mod tests;
