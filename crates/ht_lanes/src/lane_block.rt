//! Blocks of several lanes, numbered as a whole.
ghost use Rattle.std.specs.Prelude.{◌≡◌, ◌+◌, ◌^◌, ◌<◌, ◌≤◌, length};
ghost use Rattle.ht_feed.specs.Items.{Numbered};
ghost use Rattle.ht_lanes.specs.Lanes.{lane_jobs, whole_jobs};

use ht_capture_blocks::InLanes;
use ht_feed::{InFrame, Jobs, Shared};
use ht_metric::{Job, Place};
use ht_rate::Modulation;
use ht_rounding::Labelled;
use std::marker::Model;

/// A block of one lane whose jobs have other numbers: those that they have among the jobs of all lanes. Contracts see
/// the jobs as the lane numbers them, and both numbers of the first one.
#[derive(Drop)]
pub struct LaneBlock<B: Jobs> {
    block: B,
    // The number of its first job among those of its lane.
    own: u64,
    // The number of its first job among those of all lanes.
    first: u64,
}

impl<B: Jobs> Model for LaneBlock<B> {
    ghost use Rattle.ht_lanes.specs.Lanes.{IsOfLane, LaneJobs, lane_jobs};

    ghost Value = { LaneJobs };

    ghost view = { λ b. lane_jobs (B.jobs b.block) b.own b.first };

    ghost invariant = { λ b. IsOfLane (lane_jobs (B.jobs b.block) b.own b.first) };
}

impl<B: Jobs> LaneBlock<B> {
    /// A block before which its lane has given `own` jobs, and all lanes together `first` jobs.
    pub(crate) fn new(block: B, own: u64, first: u64) -> LaneBlock<B>
        requires numbers { Numbered own (B.jobs block) }
        requires some { 1 ≤ length (B.jobs block) }
        requires bound { first + length (B.jobs block) < 2 ^ 64 }
        ensures { result ≡ lane_jobs (B.jobs block) own first }
    {
        LaneBlock { block, own, first }
    }

    /// The block as its lane gave it.
    pub(crate) fn inner(&self) -> &B
        ensures { B.jobs result.now ≡ self.now.jobs }
    {
        &self.block
    }

    /// The number of its first job among those of its lane.
    pub(crate) fn own(&self) -> u64
        ensures own { result ≡ self.now.own }
        ensures numbers { Numbered self.now.own self.now.jobs }
    {
        self.own
    }
}

impl<B: Jobs> Jobs for LaneBlock<B> {
    ghost jobs = { λ b. whole_jobs b };

    fn size(&self) -> u16 {
        self.block.size()
    }

    fn place(&self) -> Place {
        self.block.place()
    }

    fn place_at(&self, at: u16) -> Place {
        self.block.place_at(at)
    }

    fn job(&self, at: u16) -> Job {
        let job = self.block.job(at);
        Job::new(
            self.first + u64::from(at),
            job.place(),
            *job.grid(),
            *job.system(),
        )
    }
}

impl<B: InFrame> InFrame for LaneBlock<B> {
    type Head = B::Head;

    fn head(&self) -> &B::Head {
        self.block.head()
    }
}

impl<B: InLanes> InLanes for LaneBlock<B> {
    fn labels(&self, modulation: Modulation, at: u16) -> Labelled {
        self.block.labels(modulation, at)
    }
}

impl<B: Shared> Shared for LaneBlock<B> {
    ghost may_lack = { B.may_lack };

    fn same(&self, other: &LaneBlock<B>) -> bool {
        self.own == other.own && self.first == other.first && self.block.same(&other.block)
    }

    fn copy(&self) -> Option<LaneBlock<B>> {
        match self.block.copy() {
            Some(block) => Some(LaneBlock {
                block,
                own: self.own,
                first: self.first,
            }),
            None => None,
        }
    }
}
