//! The lines of a trace and of the log of the native kernel, as text.
#![tactic(auto)]

mod digits;
mod events;
mod lines;
mod natives;

pub use lines::{native_line, trace_line};

#[cfg(test)]
mod tests;
