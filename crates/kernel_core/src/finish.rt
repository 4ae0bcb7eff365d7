//! How a run is over.

/// How a run is over: as its process (wait(2)), or by this project's own rules.
#[derive(Clone, Copy, PartialEq, Eq)]
pub enum Finish {
    /// The guest exited with this status, the low 8 bits of what it gave.
    Exited(u8),
    /// A signal killed the guest: its number for an o32 program, 1 to 128.
    Killed(u8),
    /// The budget's turns are done and the guest had not ended.
    Budget,
    /// The guest waits, and nothing can come any more that would end its wait.
    Blocked,
}
