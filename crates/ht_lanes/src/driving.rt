//! All blocks of several lanes.
ghost use Rattle.ht_feed.specs.Limits.{IsWindowSize};
ghost use Rattle.ht_lanes.specs.Lanes.{MayRun, RunsLanes, sides_of};

use crate::finishing::finish_lanes;
use crate::lane::Lane;
use crate::lane_block::LaneBlock;
use crate::lanes::Lanes;
use circular_buffer::HeapCircularBuffer;
use ht_feed::{Work, drive_alone};
use std::alloc::{AllocError, Global};

/// Runs all blocks of lanes that gave none yet, in this thread, and hands each lane the answers to its own. Behind the
/// last one each puts what it keeps back. One block is due at a time, of at most `window` jobs, 1 to 4096; no clause says
/// so. The only error is lack of memory.
pub fn drive_lanes_alone<L: Lane<S, K>, S, K, W: Work<LaneBlock<L::Block>, Answer = L::Answer>>(
    alloc: Global,
    window: u16,
    work: &W,
    lanes: &mut [L],
    sources: &mut [S],
    sinks: &mut [K],
) -> Result<(), AllocError>
    requires window { IsWindowSize window }
    requires fresh { MayRun L.due (sides_of lanes.old sources.old sinks.old) }
    ensures { RunsLanes L.leads L.due L.rests L.over L.finished result
        (sides_of lanes.old sources.old sinks.old) (sides_of lanes.new sources.new sinks.new) }
{
    let Ok(mut due) = HeapCircularBuffer::with_capacity(alloc, 1) else {
        return Err(AllocError);
    };
    let mut feed = Lanes::new(lanes, sources, sinks, &mut due);
    match drive_alone(window, work, &mut feed) {
        Ok(_) => {
            finish_lanes::<L, S, K>(lanes, sinks);
            Ok(())
        }
        Err(_) => Err(AllocError),
    }
}
