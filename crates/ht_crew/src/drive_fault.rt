//! Why a drive ended early.

use std::fmt::Display;
use thiserror::Error;

/// What a drive refuses with.
#[derive(Debug, Drop, PartialEq, Eq, Error)]
#[error_bound(E: Display)]
pub enum DriveFault<E> {
    /// A call of the feed failed and answered this.
    #[error("{0}")]
    Feed(E),
    /// Out of memory for the drive; no call of the feed was made.
    #[error("out of memory")]
    NoMemory,
}
