//! The three streams of a process (stdin(3)), and pipes (pipe(7)).

/// One of the streams that a process begins with.
#[derive(Clone, Copy)]
pub enum Stream {
    /// Standard input.
    Input,
    /// Standard output.
    Out,
    /// Standard error.
    Err,
}

/// How many bytes the kernel itself has moved since its opening. Each number stops at 2^128 - 1.
/// (The counts are this project's own.)
#[derive(Clone, Copy)]
pub struct Moved {
    /// Taken from the input.
    pub taken: u128,
    /// Written to the output.
    pub out: u128,
    /// Written to the error output.
    pub err: u128,
}

/// A pipe: its bytes, in the order in which they were written, and which of its ends are open.
#[derive(Drop)]
pub struct PipeEnds<P: Drop> {
    pub bytes: P,
    /// Whether the read end is open.
    pub readers: bool,
    /// Whether the write end is open.
    pub writers: bool,
}
