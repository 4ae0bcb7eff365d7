//! The calls of an o32 program on time, made by native calls, and how its sleeps end.
#![tactic(auto)]

mod call;
mod clock_times;
mod clocks;
mod ends;
mod looking;
mod numbers;
mod showing;
mod sleeping;
mod storing;
mod times;

pub use call::wait_call;
pub use ends::wait_end;
