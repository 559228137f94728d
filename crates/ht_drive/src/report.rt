//! What a drive says of its run.

use ht_pool::common::AnswerPass;
use ht_pool::ends::Ends;

/// What went through the deques and the queue of a drive. Contracts see what was pushed and taken; the program stores
/// no such list.
#[derive(Drop)]
pub struct Passes<T: Drop, D: Drop> {
    /// The deques of tasks, the caller's first.
    pub deques: Vec<Ends<T>>,
    /// All passes on the queue of what came back, joined.
    pub results: AnswerPass<D>,
}

/// What a drive did, whose tasks are of `T` and come back as `D`.
#[derive(Drop)]
pub struct Report<T: Drop, D: Drop> {
    /// The number of jobs that the feed gave.
    pub jobs: u64,
    /// How many jobs the caller ran of blocks that it didn't give to the pool.
    pub own: u64,
    /// How many jobs each worker ran of blocks that were given to the pool, the caller first; empty without threads.
    pub ran: Vec<u64>,
    /// What went through the deques and the queue; none without threads.
    pub passes: Option<Passes<T, D>>,
}
