//! The native calls that wait for descriptors, over what tells which of them are ready: ppoll(2), pselect(2).
#![tactic(auto)]

mod ends;
mod entries;
mod fd_sets;
mod masks;
mod poll;
mod readiness;
mod select;
mod structures;
mod telling;
mod times;

pub use poll::ppoll;
pub use readiness::Readiness;
pub use select::{SetPlaces, pselect};
