//! The interval timer of the modelled kernel (setitimer(2), getitimer(2), alarm(2)).
#![tactic(auto)]

pub mod laws;
mod timers;

pub use timers::{LAST_DUE_TIME, LATEST_TIME, Timers};

#[cfg(test)]
mod tests;
