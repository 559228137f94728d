//! What a detector finds.

use crate::vector::Vector;

/// A vector with its distance, which a detector found for a job.
#[derive(Clone, Copy, Debug, PartialEq, Eq)]
pub struct Found {
    /// A point for each spatial stream.
    pub vector: Vector,
    /// The squared distance.
    pub distance: u128,
}
