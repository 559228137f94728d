//! What came of a move.

/// What came of moving tasks from another's deque to the own one.
pub(crate) enum Move<T> {
    /// Some were moved.
    Moved,
    /// The own deque had no memory for this one, the last that was taken.
    Refused(T),
    /// There were none.
    Empty,
    /// Another thread took the first one.
    Retry,
}
