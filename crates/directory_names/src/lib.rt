//! The names of one directory, in the order in which they were made, looked up by hash.
#![tactic(auto)]

mod directory;
mod entry;
mod order;

pub use directory::Directory;
pub use entry::{EntryView, NodeRef};
pub use kernel_core::NoMemory;

#[cfg(test)]
mod tests;
