//! The hits of a block.
ghost use Rattle.std.specs.Prelude.{◌≡◌, ◌^◌, ◌<◌, length, IfOk};
ghost use Rattle.ht_metric.specs.Jobs.{near};
ghost use Rattle.ht_feed.specs.Dues.{AreHits};

use crate::answer::{Answer, Work};
use crate::hard::is_last_hard;
use crate::jobs::Jobs;
use ht_metric::{Found, Job};
use ht_pam::Steps;
use ht_sphere::find;
use std::alloc::{AllocError, Global};
use std::marker::Brand;
use std::sync::ledger::{Blank, Ledger};

/// What was found for the jobs of a block, fewer than 2^16: for each its first nearest vector, with that vector's distance,
/// which is below 2^66.
#[derive(Debug, Drop)]
pub struct Hits {
    /// One for each job, in the order of the jobs.
    pub found: Vec<Found>,
}

impl Answer for Hits {
    ghost answers = { λ hits jobs. AreHits hits.found.items jobs };
}

// What is found for a job, with the steps of a counter of its own.
#[inline(always)]
fn detect_by<L: Ledger>(job: &Job, blank: Blank) -> Found
    requires name { blank.name ≡ L.name }
    requires parts { blank.parts ≡ L.parts }
    requires some { 0 < blank.parts }
    ensures found { result ≡ near job.now }
    ensures below { result.distance < 2 ^ 66 }
{
    let mut steps = Steps::<L>::new(blank);
    find(job, &mut steps)
}

/// What is found for a job: its first nearest vector, with that vector's distance.
// As a call it cost some 30 instructions a job, and the copy of its result stalled on the writes before it.
#[inline(always)]
pub fn detect(job: &Job) -> Found
    ensures found { result ≡ near job.now }
    ensures below { result.distance < 2 ^ 66 }
{
    detect_by::<Brand>(job, Blank::new(1))
}

/// What finds the hit of a job.
pub trait Finder {
    /// What is found for a job: its first nearest vector, with that vector's distance.
    fn find(&self, job: &Job) -> Found
        ensures found { result ≡ near job.now }
        ensures below { result.distance < 2 ^ 66 };
}

/// The hits of a block, found job by job. The only error is lack of memory.
pub fn hits_of<B: Jobs, F: Finder>(alloc: Global, block: &B, finder: &F) -> Result<Hits, AllocError>
    requires few { length (B.jobs block.now) < 2 ^ 16 }
    ensures right { IfOk result (λ hits. AreHits hits.found.items (B.jobs block.now)) }
{
    let size = block.size();
    let mut found = Vec::with_capacity(alloc, usize::from(size))?;
    for at in 0..size {
        let job = block.job(at);
        found.push_reserved(finder.find(&job));
    }
    Ok(Hits { found })
}

/// Finds the hits of any block, job by job.
#[derive(Clone, Copy, Debug)]
pub struct Detector {
    /// Where the memory for the hits comes from.
    pub alloc: Global,
}

impl Finder for Detector {
    fn find(&self, job: &Job) -> Found {
        detect(job)
    }
}

impl<B: Jobs> Work<B> for Detector {
    type Answer = Hits;

    fn answer_to(&self, block: &B) -> Result<Hits, AllocError> {
        hits_of(self.alloc, block, self)
    }

    /// Whether the last job, which speaks for all, was hard.
    fn is_hard(&self, block: &B, answer: &Hits) -> bool {
        is_last_hard(block, answer.found.as_slice())
    }
}
