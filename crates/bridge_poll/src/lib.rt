//! The calls poll(2) and ppoll(2) of an o32 program, made by calls of the 64-bit kernel, and how their waits end.
#![tactic(auto)]

mod asking;
mod call;
mod ends;
mod entries;
mod limited;
mod numbers;
mod telling;

pub use bridge_limits::{
    Below, NativeKernel, action, mask, pending, set_default, set_mask, stack, take, wrote,
};
pub use call::{is_poll_call, poll_call};
pub use ends::poll_end;
