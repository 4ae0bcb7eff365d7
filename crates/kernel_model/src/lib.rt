//! The kernel defined whole, in names and plain numbers, without any layout.
//!
//! The definitions stand in `specs/`; here is the plain data that they share with code.
#![tactic(auto)]

mod descriptor;
pub mod laws;
mod limit;
mod signal;
mod stream;
mod terminal;
mod time;

pub use descriptor::{Description, Descriptor, Object};
pub use limit::Limit;
pub use signal::{Action, Post, SigStack};
pub use stream::{Moved, PipeEnds, Stream};
pub use terminal::{Terminal, TerminalCharacters, TerminalSettings, Winsize};
pub use time::{TimeSpec, TimeVal, TimerValue};
