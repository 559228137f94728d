//! What a window keeps of a job.

use ht_metric::{Found, Job};

/// A job that was issued, with what was found for it once that has come.
#[derive(Debug, Drop)]
pub struct Slot {
    /// The job.
    pub job: Job,
    /// What was found for it; none as long as nothing has come.
    pub found: Option<Found>,
}
