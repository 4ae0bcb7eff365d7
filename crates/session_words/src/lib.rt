//! The words after the emulator's own name, read.
#![tactic(auto)]

mod words;

pub use words::{
    Command, DEFAULT_BUDGET, ReplayLine, RunLine, WordsError, command_of, read, read_replay,
    read_soak, word_at, word_of,
};
