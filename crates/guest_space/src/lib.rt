//! The guest's memory: pages of 4096 bytes with a protection, loads and stores, and the program break.
#![tactic(auto)]

mod access;
mod range;
mod resize;
mod space;
mod walk;

pub use access::{Access, Denied, MapError, StoreError, Why};
pub use kernel_core::NoMemory;
pub use raw_pages::Page;
pub use space::Space;
