//! A block of memory behind a raw pointer, or none.
#![tactic(auto)]

mod frame;
mod loose;

pub use frame::Frame;

#[cfg(test)]
mod tests;
