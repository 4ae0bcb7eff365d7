//! The entries of a directory for an o32 program, made by native calls.
#![tactic(auto)]

mod answers;
mod call;
mod listing;
mod numbers;
mod passing;
mod records;
mod showing;

pub use call::entries_call;
