//! Blocks of several lanes that are due.
ghost use Rattle.std.specs.Prelude.{◌≡◌};
ghost use Rattle.ht_feed.specs.Items.{Numbered};
ghost use Rattle.ht_lanes.specs.Lanes.{due_of};

use crate::lane_block::LaneBlock;
use ht_feed::Jobs;
use std::marker::Model;
use std::snapshot::Snapshot;

/// What is kept of a block that is due: the number of its lane, and that of its first job among those of its lane.
/// Contracts see the whole block.
#[derive(Drop)]
pub struct LaneDue<B: Jobs> {
    lane: usize,
    own: u64,
    // The block; it has no octets.
    block: Snapshot<LaneBlock<B>>,
}

impl<B: Jobs> Model for LaneDue<B> {
    ghost use Rattle.std.specs.Prelude.{◌≡◌};
    ghost use Rattle.ht_feed.specs.Items.{Numbered};
    ghost use Rattle.ht_lanes.specs.Lanes.{DueOf, due_of};

    ghost Value = { DueOf };

    ghost view = { λ d. due_of d.lane d.block.value };

    ghost invariant = { λ d. (d.own ≡ d.block.value.own) × Numbered d.block.value.own d.block.value.jobs };
}

impl<B: Jobs> LaneDue<B> {
    /// What is kept of a block of the lane with this number.
    pub(crate) fn of(lane: usize, block: &LaneBlock<B>) -> LaneDue<B>
        ensures { result ≡ due_of lane block.now }
    {
        LaneDue {
            lane,
            own: block.own(),
            block: Snapshot::of(block),
        }
    }

    /// The number of its lane.
    pub(crate) fn lane(&self) -> usize
        ensures { result ≡ self.now.lane }
    {
        self.lane
    }

    /// The number of its first job among those of its lane.
    pub(crate) fn own(&self) -> u64
        ensures own { result ≡ self.now.block.own }
        ensures numbers { Numbered self.now.block.own self.now.block.jobs }
    {
        self.own
    }
}
