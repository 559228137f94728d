//! A pool of workers that steal, for any kind of work.
//!
//! A [`PoolWork`](work::PoolWork) says what a task is, what an answer is, which task an answer is of, and how much is in a task.
//! [`Pool::open`](pool::Pool::open) takes all the memory that a pool needs. Its parts are what the threads share, the end of the
//! caller, and the workers. With a [`Caller`](caller::Caller) the calling thread gives tasks to the pool, takes tasks back that
//! no worker took and runs them, and receives answers. [`beside`](crew::beside) runs the workers, each in a thread of its own,
//! while the caller works with it in the thread that called. [`close`](close::close) then joins what all have done.
//!
//! Tasks go through deques (crate `crossbeam_deque`): the caller pushes on its own, and each worker moves tasks from
//! another's deque to its own. Answers go through a queue with a bound (`crossbeam_queue`). Each thread has a taker at every
//! deque and a pass on the queue, which remember in proofs what was pushed and taken with them. So
//! [`close`](close::close) can say what the threads did, in whatever order they ran: each task that was given was run once,
//! by the caller or by a worker, no task is left, and every answer was received. Beside that it says how much was in the tasks
//! that each thread has run, by the weight that the work gives a task.
//!
//! With three workers beside the caller and the tasks 0 to 9 to square, each of weight 1, what was run may come out as
//! 4, 2, 3 and 1, the caller's first: they add up to 10, and so do those of any other run.
#![tactic(auto)]

pub mod caller;
pub mod caller_end;
pub mod close;
pub mod closed;
pub mod common;
pub mod crew;
pub mod ends;
mod first;
mod lookout;
pub mod member;
mod moving;
mod new_deques;
pub mod own;
pub mod pass_log;
pub mod pool;
pub mod rule;
mod serve;
pub mod space;
pub mod taker;
pub mod work;
