//! What an input had that was read to its end.

/// What a whole input had, where all was put that had to be.
#[derive(Clone, Copy, Debug, PartialEq, Eq)]
pub struct Ended {
    /// The number of its frames.
    pub frames: u64,
    /// The number of their jobs.
    pub jobs: u64,
}
