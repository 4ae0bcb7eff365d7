//! The calls of an o32 program on the interval timer, made by native calls.
#![tactic(auto)]

mod alarms;
mod call;
mod intervals;
mod looking;
mod numbers;
mod setting;
mod settings;
mod shown;
mod storing;

pub use call::timer_call;
