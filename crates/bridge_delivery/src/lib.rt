//! Signals are delivered to an o32 program: the choice of the next one, what is done with it, and its handler's frame.
#![tactic(auto)]

mod delivering;
mod dispositions;
mod frames;
mod handling;
mod process;
mod quiet;
mod sets;
mod taken;

// Passed on: the turn ends waits, posts and delivers, and names one crate for it.
pub use bridge_ends::{
    acceptance_call, accepts, end_wait, event_info, poll_call, post_event, post_timer, select_call,
    wait_call,
};
pub use delivering::deliver;
pub use quiet::is_quiet;
