//! A finished run repeated from its executable and its journal, with no kernel behind it
//! (`specs/Replay.antt` has one turn, `specs/Whole.antt` the whole replay).
#![tactic(auto)]

mod answer;
mod carrying;
mod coming;
mod difference;
mod last;
mod machine;
mod whole;

pub use answer::{ReplayAnswer, ReplayEnd};
pub use whole::replay;

#[cfg(test)]
mod tests;
