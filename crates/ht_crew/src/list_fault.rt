//! How a feed over a list fails.

use thiserror::Error;

/// A call that was to fail. Its number counts the calls of the feed from 0.
#[derive(Clone, Copy, Debug, PartialEq, Eq, Error)]
#[error("call {call} was to fail")]
pub struct ListFault {
    /// The number of the call.
    pub call: u64,
}
