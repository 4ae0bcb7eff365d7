//! The calls select(2) and pselect(2) of an o32 program, made by calls of the 64-bit kernel, and how their waits end.
#![tactic(auto)]

mod asked;
mod call;
mod ends;
mod fd_sets;
mod requests;
mod rooms;
mod selecting;
mod telling;

pub use call::select_call;
pub use ends::select_end;
