//! The calls of an o32 program on descriptors and what they have open, made by native calls.
#![tactic(auto)]

mod call;
mod commands;
mod descriptors;
mod gathering;
mod looking;
mod numbers;
mod pipes;
mod placing;
mod reading;
mod room;
mod structures;
mod telling;
mod terminal;
mod vectors;
mod writing;

pub use bridge_log::{
    Below, NativeKernel, NativeWords, fresh_room, load_structure, outcome_of, store,
};
pub use call::io_call;
