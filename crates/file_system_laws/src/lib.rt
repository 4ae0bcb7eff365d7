//! Every call keeps a file system: laws over the definitions of `kernel_core`.
//!
//! Each law is the contract of a function that does nothing. Its premises are those that the calls
//! of a file system have: nodes that make up a file system, a place that agrees with them, no
//! refusal, a new number, times and modes within their ranges. (The rules are this project's own.)
#![tactic(auto)]

pub mod held_nodes;
pub mod loaded_trees;
pub mod making_calls;
pub mod new_numbers;
pub mod node_calls;
pub mod removing_calls;
pub mod renaming_calls;
pub mod saved_trees;
pub mod walks;
