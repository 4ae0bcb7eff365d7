//! The first memory and the first processor of a process, made from an executable's load plan.
#![tactic(auto)]

mod error;
mod pages;
mod segments;
mod stack;
mod stack_text;
mod start;
mod strings;
mod words;

pub use error::StartError;
pub use start::{Start, build};
