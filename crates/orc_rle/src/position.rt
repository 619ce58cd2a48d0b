//! Positions in streams of runs.
/// Where a value stands in a stream of runs: so many values after the start of the run at an offset.
#[derive(Clone, Copy, Debug, PartialEq, Eq)]
pub struct Pos {
    /// The offset of a run's start, in bytes from the start of the stream.
    pub offset: usize,
    /// How many values are passed from there on.
    pub skip: usize,
}

/// Where a boolean stands in a stream of booleans: so many bytes after the start of the run of bytes at an
/// offset, and so many booleans of the byte that comes then.
#[derive(Clone, Copy, Debug, PartialEq, Eq)]
pub struct BitPos {
    /// The offset of a run's start, in bytes from the start of the stream.
    pub offset: usize,
    /// How many bytes of eight booleans are passed from there on.
    pub skip: usize,
    /// How many booleans are passed after them, 8 at most.
    pub bits: usize,
}
