//! Several lanes as one feed.
ghost use Rattle.std.specs.Prelude.{◌≡◌, ◌≤◌, [], false, length, None};
ghost use Rattle.ht_lanes.specs.Lanes.{IsFeed, LentLead, lanes_view, lent, most_jobs};
ghost use Rattle.ht_lanes.specs.Leading.{lent-none, lent-on};

use crate::giving::give;
use crate::lane::Lane;
use crate::lane_block::LaneBlock;
use crate::lane_due::LaneDue;
use crate::settling::settle_first;
use circular_buffer::HeapCircularBuffer;
use ht_feed::{BlockFeed, Jobs};
use std::alloc::AllocError;

/// The most jobs that are given in all.
const MOST: u64 = u64::MAX - 1;

/// A feed over several lanes, with a source and a sink for each, which it borrows.
///
/// It asks the lanes that aren't over in turn, a block each, and numbers the jobs of all of them from 0. An answer goes
/// back to the lane of the oldest block that is due. A lane that rests gives no blocks, and what is still due of it is
/// dropped; the others go on as if it weren't there. The feed ends where all lanes are over. Lack of memory makes it fail, and
/// so does a job of number 2^64 - 2: from then on each call fails.
#[derive(Drop)]
pub struct Lanes<'a, L: Lane<S, K>, S, K> {
    lanes: &'a mut [L],
    sources: &'a mut [S],
    sinks: &'a mut [K],
    // The blocks of all lanes that are due, in order.
    due: &'a mut HeapCircularBuffer<LaneDue<L::Block>>,
    // The lane that is asked first.
    turn: usize,
    // The number of jobs given.
    count: u64,
    // Whether all lanes have been found to be over.
    ended: bool,
    // What a call that failed answered.
    failed: Option<AllocError>,
    ghost feed: { IsFeed L.due L.rests L.over lanes.now (length sources.now) (length sinks.now) due.now.items ended },
    ghost few: { count ≤ most_jobs },
}

impl<'a, L: Lane<S, K>, S, K> Lanes<'a, L, S, K> {
    /// A feed over lanes of which none has given a block. It takes no memory.
    pub fn new(
        lanes: &'a mut [L],
        sources: &'a mut [S],
        sinks: &'a mut [K],
        due: &'a mut HeapCircularBuffer<LaneDue<L::Block>>,
    ) -> Lanes<'a, L, S, K>
        requires feed { IsFeed L.due L.rests L.over lanes.old (length sources.old) (length sinks.old) due.old.items false }
        requires none { due.old.items ≡ [] }
        ensures lanes { result.lanes ≡ lanes.entry }
        ensures sources { result.sources ≡ sources.entry }
        ensures sinks { result.sinks ≡ sinks.entry }
        ensures due { result.due ≡ due.entry }
        ensures shown { lanes_view result.count result.due.now.items result.ended result.failed ≡ lanes_view 0 [] false None }
    {
        Lanes {
            lanes,
            sources,
            sinks,
            due,
            turn: 0,
            count: 0,
            ended: false,
            failed: None,
        }
    }
}

impl<'a, L: Lane<S, K>, S, K> BlockFeed for Lanes<'a, L, S, K> {
    type Fault = AllocError;

    type Block = LaneBlock<L::Block>;

    type Answer = L::Answer;

    ghost shown = { λ f. lanes_view f.count f.due.now.items f.ended f.failed };

    ghost leads = { λ a b. LentLead L.leads (lent a.lanes a.sources a.sinks a.due) (lent b.lanes b.sources b.sinks b.due) };

    fn next(&mut self, most: u16) -> Result<Option<LaneBlock<L::Block>>, AllocError> {
        if let Some(lack) = self.failed {
            return Err(lack);
        }
        if self.count > MOST - u64::from(most) {
            self.failed = Some(AllocError);
            return Err(AllocError);
        }
        match give::<L, S, K>(
            self.lanes,
            self.sources,
            self.due,
            self.turn,
            most,
            self.count,
        ) {
            Ok(Some((lane, block))) => {
                self.turn = lane + 1;
                self.count += u64::from(block.size());
                Ok(Some(block))
            }
            Ok(None) => {
                self.ended = true;
                Ok(None)
            }
            Err(lack) => {
                self.failed = Some(lack);
                Err(lack)
            }
        }
    }

    fn take(&mut self, block: &LaneBlock<L::Block>, answer: &L::Answer) -> Result<(), AllocError> {
        if let Some(lack) = self.failed {
            return Err(lack);
        }
        match settle_first::<L, S, K>(self.lanes, self.sinks, self.due, block, answer) {
            Ok(()) => Ok(()),
            Err(lack) => {
                self.failed = Some(lack);
                Err(lack)
            }
        }
    }

    ghost stays = { λ a. lent-none L.leads L.stays L.goes_on (lent a.lanes a.sources a.sinks a.due) };

    ghost goes_on = { λ a b c. lent-on L.leads L.stays L.goes_on (lent a.lanes a.sources a.sinks a.due)
        (lent b.lanes b.sources b.sinks b.due) (lent c.lanes c.sources c.sinks c.due) };
}
