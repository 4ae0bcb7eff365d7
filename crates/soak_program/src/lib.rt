//! The soak program, which writes numbers to a file and adds them up: its executable, and the line that tells
//! what a run of it came to. (It is this project's own.)
#![tactic(auto)]

mod executable;
mod instructions;
mod line;
mod numbers;

pub use executable::soak_program;
pub use instructions::{code_is_the_program, one_turn_each};
pub use line::soak_line;

#[cfg(test)]
mod tests;
