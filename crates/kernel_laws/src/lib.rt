//! Each row of the kernel keeps what a state always is: laws over the definitions of `kernel_model`.
//!
//! Each law is the contract of a function that does nothing. (The rules are this project's own.)
#![tactic(auto)]

pub mod beginning;
pub mod clocks;
pub mod contents;
pub mod descriptors;
pub mod effects;
pub mod every_row;
pub mod names;
pub mod nodes;
pub mod runs;
pub mod sending;
pub mod sets;
pub mod signals;
pub mod system;
pub mod transfers;
