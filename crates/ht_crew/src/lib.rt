//! The drives that run the jobs of a feed and hand it their hits in order.
//!
//! A [`Feed`] gives detection jobs (crate `ht_metric`) numbered from 0, and takes each job's hit back, its first
//! nearest vector. [`drive_alone`] runs them in the caller's thread by the sphere search (`ht_sphere`), one after another.
//! [`drive`] does the same with workers in threads of their own, and promises the same of the feed. A [`Gate`] is called
//! before and after each job. Both use the drives of blocks of crates `ht_feed` and `ht_drive`, with each job as a block of
//! its own.
//!
//! Over a [`ListFeed`] of three jobs, [`drive_alone`] makes these calls of the feed: `next`, `take` of 0, `next`, `take`
//! of 1, `next`, `take` of 2, and `next`, which finds no more jobs. If call 4 is to fail, the drive answers
//! [`DriveFault::Feed`] with `ListFault { call: 4 }`: the hits of 0 and 1 were taken, and no job is due. If none fails,
//! it answers a [`Report`] of three jobs.
#![tactic(auto)]

mod alone;
mod detect;
mod drive_fault;
mod feed;
mod feeding;
pub mod laws;
mod list_fault;
mod list_feed;
mod report;
mod singles;
mod threaded;

pub use alone::drive_alone;
pub use drive_fault::DriveFault;
pub use feed::Feed;
pub use ht_feed::{Gate, OpenGate};
pub use list_fault::ListFault;
pub use list_feed::ListFeed;
pub use report::{Passes, Report};
pub use threaded::drive;
