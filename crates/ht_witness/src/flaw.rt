//! Why a walk stops.

// What is wrong at the mark where a walk stops: none is left, it cuts a level whose partial distance isn't above the claimed
// distance, or it opens a level that completes a better vector.
#[derive(Clone, Copy)]
pub(crate) enum Flaw {
    Ended,
    Cut,
    Beaten,
}
