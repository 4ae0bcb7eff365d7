// The three streams of a run.

/// Where a run takes its input from, and where its two outputs go.
#[derive(Drop)]
pub struct Devices<I, O, E> {
    /// Standard input.
    pub input: I,
    /// Standard output.
    pub out: O,
    /// Standard error.
    pub err: E,
}
