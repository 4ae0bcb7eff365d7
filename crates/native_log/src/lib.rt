//! The native log of the turns of a machine: what the kernel below was told and asked, turn by turn.
#![tactic(auto)]

mod native_log;
mod times;

pub use native_log::NativeLog;
