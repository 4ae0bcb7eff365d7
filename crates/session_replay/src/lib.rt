//! The replay of a journal, from words and files to its answer.
#![tactic(auto)]

mod replay;

pub use replay::{Replied, replay_words};
