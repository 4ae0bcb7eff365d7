//! Changes of a signal mask by name.

/// What sigprocmask(2) does with its set.
#[derive(Clone, Copy, PartialEq, Eq)]
pub enum MaskChange {
    /// SIG_BLOCK: the mask gains the set.
    Block,
    /// SIG_UNBLOCK: the mask loses the set.
    Unblock,
    /// SIG_SETMASK: the mask becomes the set.
    Set,
}
