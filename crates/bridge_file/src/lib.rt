//! The calls of an o32 program on files by their names, made by native calls.
#![tactic(auto)]

mod arguments;
mod call;
mod calls;
mod names;
mod nodes;
mod paths;
mod seeking;
mod sizes;
mod telling;
mod texts;
mod times;

pub use call::file_call;
