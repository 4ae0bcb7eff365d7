//! The calls that bridges make.

use crate::descriptors::IoCall;
use crate::files::{EntriesCall, OpenCall, StatusCall};
use crate::mappings::MapCall;
use crate::names::FileCall;
use crate::process::SystemCall;
use crate::signals::SignalCall;
use crate::times::{PollCall, SelectCall, TimeCall, TimerCall};

/// A call that a bridge makes, by its group. (The groups are this project's own: each is made in one place.)
#[derive(Clone, Copy)]
pub enum BridgedCall {
    /// One on descriptors and what they have open.
    Io(IoCall),
    /// One that opens a file.
    Open(OpenCall),
    /// One that tells of a file.
    Status(StatusCall),
    /// One that lists a directory.
    Entries(EntriesCall),
    /// One on files by their names, or on their sizes, times and offsets.
    File(FileCall),
    /// One on mappings.
    Map(MapCall),
    /// One on clocks, or that sleeps.
    Time(TimeCall),
    /// One on the interval timer.
    Timer(TimerCall),
    /// One that waits for descriptors by a list.
    Poll(PollCall),
    /// One that waits for descriptors by sets.
    Select(SelectCall),
    /// rt_sigtimedwait, as in sigtimedwait(2)
    RtSigtimedwait,
    /// One on signals.
    Signal(SignalCall),
    /// One on limits, chance or the system's name.
    System(SystemCall),
}
