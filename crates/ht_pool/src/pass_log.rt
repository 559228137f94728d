//! What a pass knows.

use std::collections::LinkedList;

/// What was pushed and taken with one pass on a deque or a queue, and how many of the 1024 parts of the right to know
/// the whole go with it. Only proofs speak of it; no value is ever made.
pub struct PassLog<T> {
    /// The number of parts.
    pub parts: u64,
    /// What was pushed with this pass, in order.
    pub pushed: LinkedList<T>,
    /// What was taken with this pass, in order.
    pub taken: LinkedList<T>,
}
