//! A worker's own things.

use crate::common::AnswerPass;
use crate::own::OwnDeque;
use crate::taker::Taker;

/// A worker before its thread begins, and after it has ended.
#[derive(Drop)]
pub struct Member<T: Drop, A: Drop> {
    /// Its own deque.
    pub own: OwnDeque<T>,
    /// Its takers at all deques, in the order of the deques.
    pub takers: Vec<Taker<T>>,
    /// The number of its own deque in this order.
    pub place: u8,
    /// Its pass on the queue of answers.
    pub pass: AnswerPass<A>,
    /// How much was in the tasks that it has run.
    pub ran: u64,
}
