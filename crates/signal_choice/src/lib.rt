//! Which signal of an o32 program comes first: of those that pend and are not blocked, and of those that a call waits
//! for by name.
#![tactic(auto)]

mod accepting;
mod choosing;
mod sets;

pub use accepting::accepted;
pub use choosing::choose;
pub use sets::{has, is_named, is_unblockable, only};

#[cfg(test)]
mod tests;
