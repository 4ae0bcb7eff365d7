//! What a replay comes to.

use kernel_core::Finish;

/// How a replay is over, or why it stopped early. (The replay is this project's own.)
#[derive(Clone, Copy, PartialEq, Eq)]
pub enum ReplayEnd {
    /// The turns of the journal are taken; its end says how the run was over.
    Finished(Finish),
    /// Journal and machine differ first in this turn: what the journal has there, and what the machine
    /// has.
    Diverged { turn: u64, wanted: u64, found: u64 },
    /// The arguments and the environment of the journal are too long for a start.
    Start,
    /// An output failed.
    WriteFault,
    /// Memory was wanting.
    NoMemory,
}

/// What a replay comes to.
#[derive(Clone, Copy, PartialEq, Eq)]
pub struct ReplayAnswer {
    /// How it is over.
    pub end: ReplayEnd,
    /// The turns that are finished.
    pub turns: u64,
}
