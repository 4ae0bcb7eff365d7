//! How the waits of an o32 program's calls end, and how signals are posted to it from outside and by its timer.
#![tactic(auto)]

mod closing;
mod ends;
mod posting;

// Passed on, so that who makes the calls that wait for descriptors or signals, and ends their waits, names one crate.
pub use bridge_acceptance::{acceptance_call, accepts};
pub use bridge_poll::{
    Below, NativeKernel, action, mask, pending, poll_call, set_default, set_mask, stack, take,
    wrote,
};
pub use bridge_select::select_call;
pub use bridge_wait::wait_call;
pub use ends::end_wait;
pub use posting::{event_info, post_event, post_timer};
