//! How long a run is.

/// How many bytes a run has, and how many values.
#[derive(Clone, Copy, Debug, PartialEq, Eq)]
pub struct RunSize {
    /// Its bytes.
    pub bytes: usize,
    /// Its values.
    pub values: usize,
}

impl RunSize {
    /// The answer where there is no run.
    pub(crate) const NONE: RunSize = RunSize {
        bytes: 0,
        values: 0,
    };
}
