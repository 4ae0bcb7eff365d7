//! The calls of an o32 program on the status of files, made by native calls.
#![tactic(auto)]

mod call;
mod status;
mod structures;
mod telling;

pub use call::status_call;
