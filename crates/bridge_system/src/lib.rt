//! The small calls of an o32 program, on the process and the system, made by native calls where the kernel is asked.
#![tactic(auto)]

mod chance;
mod limits;
mod names;
mod plain;
mod rlimit;
mod small;
mod telling;

pub use bridge_io::io_call;
pub use plain::plain_call;
pub use small::system_call;
