//! The content of a regular file: its size, and the blocks of 4096 bytes that it keeps.
#![tactic(auto)]

mod block_store;
mod content;
mod extent;
mod extent_list;
mod walk;

pub use content::Content;
pub use kernel_core::NoMemory;

#[cfg(test)]
mod tests;
