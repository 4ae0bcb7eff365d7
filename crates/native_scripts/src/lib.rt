//! Scripts of native calls, for the tests of `native_files` and `native_kernel`: lines, what their words stand for, and the trees that
//! the tests begin with.
#![tactic(auto)]

pub mod memory;
mod numbers;
pub mod rows;
pub mod trees;

// Passed on: the scripts' lines are read by it.
pub use script_words::Words;
