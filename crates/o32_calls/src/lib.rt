//! The calls of an o32 program, by name.
#![tactic(auto)]

mod bridged_call;
mod descriptors;
mod files;
mod mappings;
mod names;
mod o32_call;
mod process;
mod signals;
mod times;
mod waiting;

pub use bridged_call::BridgedCall;
pub use descriptors::IoCall;
pub use files::{EntriesCall, OpenCall, StatusCall};
pub use mappings::MapCall;
pub use names::{FileCall, NameCall, NodeCall, PlaceCall, SizeCall, TextCall};
pub use o32_call::O32Call;
pub use process::{PlainCall, SystemCall};
pub use signals::SignalCall;
pub use times::{PollCall, SelectCall, TimeCall, TimerCall};
pub use waiting::{
    CLOCK_NANOSLEEP, NANOSLEEP, NEWSELECT, PAUSE, POLL, PPOLL, READ, READV, RESTART_SYSCALL,
    RT_SIGSUSPEND, RT_SIGTIMEDWAIT, WRITE, WRITEV,
};

#[cfg(test)]
mod tests;
