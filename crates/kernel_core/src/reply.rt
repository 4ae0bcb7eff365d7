//! What the native kernel answers a call.

/// A call that waits. (The form is this project's own.)
#[derive(Clone, Copy, PartialEq, Eq)]
pub struct Wake {
    /// How many bytes a write to a pipe has put already; 0 for any other call.
    pub done: u64,
    /// The deadline of the wait, in nanoseconds of the native clock; None where it has none.
    pub until: Option<u64>,
}

/// What the native kernel answers a call. (The form is this project's own.)
#[derive(Clone, Copy, PartialEq, Eq)]
pub enum Reply {
    /// The call is done: its result, or below 0 the native number of an error with its sign turned.
    Done(i64),
    /// The call waits.
    Sleep(Wake),
}
