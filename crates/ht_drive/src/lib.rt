//! The drive of a feed of blocks by workers.
//!
//! A feed (`BlockFeed` of crate `ht_feed`) gives blocks of jobs, and takes back the answers to them in their order.
//! [`drive`] runs them by workers in threads of their own (`ht_pool`): the caller keeps each block that is due in a
//! window that has room for a number of jobs, and gives a copy of it to the pool. What comes back is kept beside the
//! block if both are known to be the same (`Shared`), and the feed takes it as soon as all blocks before it were taken.
//!
//! Large blocks cost least, but while a few large ones hold all jobs that are due some workers have none, and a block of
//! hard jobs keeps one worker busy long after the others are done. So the first blocks have one job; each answer doubles
//! the size of the next block, up to half a worker's share of a full window and at most a whole symbol; and where jobs are
//! hard it goes back to one. For two workers and a window of 256 jobs the first blocks have 1, 2, 4, 8, 16, 32, 64 and 64
//! jobs. What is found is the same at any size.
//!
//! [`drive`] promises of the feed what `drive_alone` does, and says in a [`Report`] how many jobs each worker ran, and
//! which blocks went through the deques and the queue. [`tell`] goes through a whole input of any reader in this way, and
//! hands the hits to a consumer.
//!
//! For a capture of 112 jobs, two workers and a window of 256, the report may say that the caller ran 50 jobs and the
//! other worker 62: `jobs` is 112, `own` is 0, and `ran` is 50 and 62.
#![tactic(auto)]

mod caller;
mod counts;
mod deliver;
mod lead;
mod pace;
mod report;
mod slot;
mod supply;
mod task;
mod telling;
mod threaded;
mod turn;
mod window;

pub use report::{Passes, Report};
pub use task::{Done, Task};
pub use telling::tell;
pub use threaded::drive;
