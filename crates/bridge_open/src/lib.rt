//! The calls of an o32 program that open files, made by native calls.
#![tactic(auto)]

mod call;
mod large;
mod opening;
mod sizes;

pub use call::open_call;
