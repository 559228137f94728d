//! What a caller counts.

/// The caller's counts of one drive.
#[derive(Clone, Copy, Debug)]
pub(crate) struct CallerCounts {
    /// The number of jobs that the feed gave.
    pub(crate) issued: u64,
    /// How many of them are of blocks that the caller didn't give to the pool.
    pub(crate) own: u64,
}
