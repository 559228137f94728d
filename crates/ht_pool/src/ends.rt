//! The ends of a deque whose threads have ended.
ghost use Rattle.std.specs.Prelude.{◌≡◌};
ghost use Rattle.crossbeam_deque.specs.Handles.{worker_deque};
ghost use Rattle.ht_pool.specs.Takers.{IsSpent};

use crate::taker::{Owner, TaskPass};

/// The owner's end of a deque, which shows what was pushed and taken with all passes on it, and a pass with which nothing
/// was pushed or taken.
#[derive(Drop)]
pub struct Ends<T: Drop> {
    /// The owner's end.
    pub owner: Owner<T>,
    /// What is left of the other passes, whose lists the owner's end has.
    pub pass: TaskPass<T>,
    pub ghost of: { IsSpent (worker_deque owner) pass },
}

impl<T: Drop> Ends<T> {
    /// The ends of a deque.
    pub(crate) fn new(owner: Owner<T>, pass: TaskPass<T>) -> Ends<T>
        requires of { IsSpent (worker_deque owner) pass }
        ensures owner { result.owner ≡ owner }
        ensures pass { result.pass ≡ pass }
    {
        Ends { owner, pass }
    }
}
