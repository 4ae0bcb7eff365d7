//! The outside: what the emulator reads from and writes to, behind three traits.
//!
//! A device tells its content or not, and counts its faults. `Mem` devices tell their content and
//! fail at the calls that they are told to, `Sure` devices tell it and never fail, and `Std` and
//! `Dir` devices adapt the real things and tell none.
#![tactic(auto)]

mod devices;
mod directory;
mod errors;
mod failing;
mod held;
mod memory;
mod named;
mod real;
mod register;
mod stores;
mod streams;
mod sure;
mod traits;
mod transfer;

pub use devices::Devices;
pub use directory::DirStore;
pub use errors::{DevError, Failed, LoadError};
pub use memory::{MemSink, MemSource};
pub use named::NamedFile;
pub use real::{StdSink, StdSource};
pub use stores::{MemStore, SureStore};
pub use sure::{SureSink, SureSource};
pub use traits::{Sink, Source, Store};

#[cfg(test)]
mod tests;
