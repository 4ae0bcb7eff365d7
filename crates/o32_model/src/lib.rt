//! The system calls of an o32 program, defined in o32 terms: over the kernel of `kernel_model`, guest
//! memory and the processor.
//!
//! The definitions stand in `specs/`; here is the plain data that they share with code.
#![tactic(auto)]

mod call_words;
pub mod laws;
mod log;
mod outcome;
mod range;
mod wait;

pub use call_words::CallWords;
pub use log::Log;
pub use outcome::Outcome;
pub use range::Range;
pub use wait::{Cause, Close, Seen, Wait};
