//! rt_sigtimedwait(2) of an o32 program, made by native calls: which signals a call waits for by name, what it comes
//! to, and how its wait ends.
#![tactic(auto)]

mod accepting;
mod asked;
mod call;
mod ends;
mod infos;
mod named;
mod numbers;
mod rooms;
mod structures;
mod telling;
mod waiting;

pub use call::acceptance_call;
pub use ends::acceptance_end;
pub use named::{accepts, awaits, is_acceptance_call};
