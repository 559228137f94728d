//! What may happen in a pool, and where a job may be.

use ht_metric::{Hit, Job};
use thiserror::Error;

/// One step of a pool. Actors are numbered from 0, and actor 0 is the caller.
#[derive(Debug, Drop)]
pub enum Event {
    /// The caller takes a new job in hand.
    Issue(Job),
    /// An actor puts the job in its hand at the back of its deque.
    Push(u8),
    /// An actor takes the front of its deque in hand.
    Pop(u8),
    /// An actor takes the front of another one's deque in hand.
    Steal {
        /// The actor that takes.
        thief: u8,
        /// The actor whose deque it is.
        from: u8,
    },
    /// An actor turns the job in its hand into a hit, which is then among the results.
    Finish {
        /// The actor whose hand it is.
        actor: u8,
        /// The hit of the job in that hand.
        hit: Hit,
    },
    /// The caller books the result of this number.
    Accept(u64),
    /// The caller emits the booked hit of the lowest number that is not emitted.
    Emit,
}

/// Where an issued job is.
#[derive(Clone, Copy, Debug, PartialEq, Eq)]
pub enum Spot {
    /// In this actor's hand.
    Hand(u8),
    /// In this actor's deque.
    Deque(u8),
    /// Among the hits that are finished and not booked.
    Results,
    /// Among the hits that are booked and not emitted.
    Booked,
    /// Among the hits that are emitted.
    Emitted,
}

/// Why a step was not made.
#[derive(Clone, Copy, Debug, PartialEq, Eq, Error)]
pub enum StepFault {
    /// The event is not enabled.
    #[error("the event is not enabled")]
    NotEnabled = 1,
    /// Out of memory.
    #[error("out of memory")]
    NoMemory = 2,
}
