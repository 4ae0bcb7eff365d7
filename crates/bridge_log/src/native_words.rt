//! A native call that is to be made.

/// The words of a native call: its number, and six arguments, of which those that it doesn't take are 0. (The form is this
/// project's own.)
#[derive(Clone, Copy)]
pub struct NativeWords {
    /// Its number.
    pub nr: u64,
    /// Its arguments.
    pub args: [u64; 6],
}
