//! What a drive says of its run.

use ht_drive::{Done, Passes as BlockPasses, Report as BlockReport, Task};
use ht_feed::{OneHit, OneJob};

/// What a drive did, whose blocks are single jobs and come back with their hits.
pub type Report = BlockReport<Task<OneJob>, Done<OneJob, OneHit>>;

/// What went through the deques and the queue of a drive: single jobs, and single jobs with their hits.
pub type Passes = BlockPasses<Task<OneJob>, Done<OneJob, OneHit>>;
