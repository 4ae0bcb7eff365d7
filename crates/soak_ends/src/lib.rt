//! The two ends of a run of the soak program: the plan that it begins with, and the line on the tree of files that it leaves.
#![tactic(auto)]

mod line;
mod loading;
mod written;

pub use line::line_on;
pub use loading::soak_plan;

#[cfg(test)]
mod tests;
