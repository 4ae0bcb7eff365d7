//! Words of the scripts that tests are written in: one after the other, the numbers that they stand for, and tables of names.
#![tactic(auto)]

mod numbers;
mod words;

pub use numbers::{digit, named, number_of};
pub use words::Words;
