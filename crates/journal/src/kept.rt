//! What a journal keeps.

use crate::records::Records;

/// What is kept of a finished run, so that it can be run again. (The journal is this project's own.)
#[derive(Drop)]
pub struct Journal<'a> {
    /// The program's arguments, its name first: at least one, without NUL.
    pub args: Vec<String>,
    /// The texts of its environment, without NUL.
    pub env: Vec<String>,
    /// The random bytes that it found at its start (AT_RANDOM of getauxval(3)).
    pub random: [u8; 16],
    /// What was done from outside its instructions, by rising turns; the last is the end.
    pub records: Records<'a>,
}
