//! What a pool does.
ghost use Rattle.std.specs.Prelude.{◌≡◌, ℕ};

use std::sync::Wait;

/// The count above which a worker runs no task more, so that every count fits 64 bits.
pub(crate) const FULL: u64 = 0xffff_ffff_0000_0000;

/// A kind of work. All threads of a pool share its value.
pub trait PoolWork {
    /// What is to be done.
    type Task: Drop + Send;

    /// What comes of it. What an answer has to be is a fact of its type.
    type Answer: Drop + Send;

    /// The task that an answer is of.
    ghost asked: { Self.Answer → Self.Task };

    /// How much is in a task. A pool counts by it what each worker has run.
    ghost weight: { Self.Task → ℕ };

    /// How much is in a task.
    fn weigh(&self, task: &Self::Task) -> u32
        ensures { result ≡ weight task.now };

    /// Does a task. The answer is one of this very task.
    fn answer_to(&self, task: Self::Task) -> Self::Answer
        ensures { asked result ≡ task };

    /// Does what else is waiting for a worker, if anything is, and answers whether it did. Each worker does so before it
    /// looks for a task, and the caller never does: what the caller does holds all others up.
    fn help<R: Wait>(&self, _rt: &R) -> bool {
        false
    }
}
