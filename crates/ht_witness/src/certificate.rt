//! What a certificate has.

use crate::marks::Marks;
use ht_metric::Vector;

/// What shows that a vector is the first nearest one of a job.
#[derive(Debug, Drop)]
pub struct Certificate {
    /// The claimed vector: a point for each stream of the job.
    pub vector: Vector,
    /// Its distance in the job's system.
    pub distance: u128,
    /// A mark for each level of the walk, in the order of the walk.
    pub marks: Marks,
}
