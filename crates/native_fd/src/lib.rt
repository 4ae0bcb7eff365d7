//! The table of file descriptors, each of which leads to a counted description.
#![tactic(auto)]

mod descriptions;
mod links;
mod table;

pub use kernel_core::NoMemory;
pub use table::{DESCRIPTORS, Table};

#[cfg(test)]
mod tests;
