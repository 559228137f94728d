//! What is left of a pool.

use crate::common::AnswerPass;
use crate::ends::Ends;

/// What went through a pool whose threads have ended.
#[derive(Drop)]
pub struct Closed<T: Drop, A: Drop> {
    /// The deques, the caller's first.
    pub deques: Vec<Ends<T>>,
    /// The joined pass of the queue of answers.
    pub pass: AnswerPass<A>,
    /// How much was in the tasks that each has run, the caller first.
    pub ran: Vec<u64>,
}
