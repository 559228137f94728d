//! Blocks whose jobs are run between the calls of a gate.
ghost use Rattle.std.specs.Prelude.{◌≡◌, ◌^◌, ◌<◌};
ghost use Rattle.ht_metric.specs.Jobs.{near};

use crate::frames::Frames;
use crate::whole_frame::WholeFrame;
use ht_feed::{Gate, Jobs, Work, detect};
use ht_metric::{Found, Job};
use std::alloc::{AllocError, Global};
use std::sync::Wait;

/// The first nearest vector of a job and its squared distance, below 2^66. The job is run between the two calls of the gate,
/// which get its number.
// As a call, the copy of its result stalled on the writes before it.
#[inline(always)]
pub fn run_gated<G: Gate>(gate: &G, job: &Job) -> Found
    ensures found { result ≡ near job.now }
    ensures below { result.distance < 2 ^ 66 }
{
    let number = job.number();
    gate.enter(number);
    let found = detect(job);
    gate.leave(number);
    found
}

/// A work whose workers decode whole frames before they look for blocks.
#[derive(Drop)]
pub struct BesideFrames<'f, K, W: WholeFrame> {
    /// What runs blocks.
    pub work: K,
    /// The frames that wait for a worker.
    pub frames: &'f Frames<W>,
}

impl<'f, B: Jobs, K: Work<B>, W: WholeFrame + Drop> Work<B> for BesideFrames<'f, K, W> {
    type Answer = K::Answer;

    fn answer_to(&self, block: &B) -> Result<K::Answer, AllocError> {
        self.work.answer_to(block)
    }

    fn is_hard(&self, block: &B, answer: &K::Answer) -> bool {
        self.work.is_hard(block, answer)
    }

    fn help<R: Wait>(&self, rt: &R) -> bool {
        self.frames.help(rt)
    }
}
