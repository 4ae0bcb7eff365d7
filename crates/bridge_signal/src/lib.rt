//! The calls of an o32 program on signals, made by native calls.
#![tactic(auto)]

mod actions;
mod asked;
mod call;
mod infos;
mod masks;
mod named;
mod numbers;
mod returning;
mod sending;
mod setting;
mod stacks;
mod storing;
mod structures;
mod suspending;
mod telling;

pub use call::signal_call;
