//! The calls of the modelled 64-bit kernel as a table over host memory, defined.
//!
//! The definitions stand in `specs/`; here is the plain data that they share with code.
#![tactic(auto)]

pub mod laws;
mod range;

pub use range::Range;
