//! The answer to a block goes back to its lane.
ghost use Rattle.std.specs.Prelude.{◌≡◌, ◌<◌, List, false, drop, length, slice_get, slice_index_or, Some, OnErr, OnOk};
ghost use Rattle.ht_lanes.specs.Calls.{SettlesLane};
ghost use Rattle.ht_lanes.specs.Lanes.{AllLead, AreOver, IsBooked, OneLeads, side_of, sides_of, whole_due, whole_jobs};

use crate::lane::Lane;
use crate::lane_block::LaneBlock;
use crate::lane_due::LaneDue;
use circular_buffer::HeapCircularBuffer;
use ht_feed::{Answer, Jobs};
use std::alloc::AllocError;

// Hands a lane the answer to the first block due, unless it rests.
fn settle<L: Lane<S, K>, S, K>(
    lane: &mut L,
    sink: &mut K,
    block: &L::Block,
    answer: &L::Answer,
) -> Result<(), AllocError>
    requires right { L.Answer.answers answer.now (L.Block.jobs block.now) }
    requires first { L.rests lane.old ≡ false → slice_get (L.due lane.old) 0 ≡ Some (L.Block.jobs block.now) }
    ensures settles { SettlesLane L.due L.rests L.over lane.old lane.new result }
    ensures leads { (source : S) → L.leads (side_of lane.old source sink.old) (side_of lane.new source sink.new) }
{
    if lane.is_resting() {
        return Ok(());
    }
    lane.take(block, answer, sink)
}

// Hands the lane with this number the answer to its first block due, unless it rests.
fn settle_at<L: Lane<S, K>, S, K>(
    lanes: &mut [L],
    sinks: &mut [K],
    at: usize,
    block: &L::Block,
    answer: &L::Answer,
) -> Result<(), AllocError>
    requires lane { at < length lanes.old }
    requires sink { at < length sinks.old }
    requires right { L.Answer.answers answer.now (L.Block.jobs block.now) }
    requires first { (l : L) → L.rests (slice_index_or lanes.old at l) ≡ false
        → slice_get (L.due (slice_index_or lanes.old at l)) 0 ≡ Some (L.Block.jobs block.now) }
    ensures settles { (l : L)
        → SettlesLane L.due L.rests L.over (slice_index_or lanes.old at l) (slice_index_or lanes.new at l) result }
    ensures leads { (sources : List S) → OneLeads L.leads (sides_of lanes.old sources sinks.old) (sides_of lanes.new sources sinks.new) at }
{
    settle::<L, S, K>(&mut lanes[at], &mut sinks[at], block, answer)
}

/// Hands the lane of the first block due the answer to it. The block is due no longer, unless memory lacked.
pub(crate) fn settle_first<L: Lane<S, K>, S, K>(
    lanes: &mut [L],
    sinks: &mut [K],
    due: &mut HeapCircularBuffer<LaneDue<L::Block>>,
    block: &LaneBlock<L::Block>,
    answer: &L::Answer,
) -> Result<(), AllocError>
    requires booked { IsBooked L.due L.rests lanes.old due.old.items }
    requires sinks { length sinks.old ≡ length lanes.old }
    requires right { L.Answer.answers answer.now (whole_jobs block.now) }
    requires first { slice_get (whole_due due.old.items) 0 ≡ Some (whole_jobs block.now) }
    ensures rest { OnOk result (due.new.items ≡ drop 1 due.old.items) }
    ensures memory { OnErr result (due.new.items ≡ due.old.items) }
    ensures booked { IsBooked L.due L.rests lanes.new due.new.items }
    ensures over { AreOver L.over 0 lanes.old → AreOver L.over 0 lanes.new }
    ensures leads { (sources : List S) → AllLead L.leads (sides_of lanes.old sources sinks.old) (sides_of lanes.new sources sinks.new) }
{
    let Some(first) = due.get(0) else {
        unreachable!();
    };
    let at = first.lane();
    if first.own() != block.own() {
        // The block isn't the one that is due; no caller hands such a one.
        return Err(AllocError);
    }
    match settle_at::<L, S, K>(lanes, sinks, at, block.inner(), answer) {
        Ok(()) => {
            let _ = due.pop_front();
            Ok(())
        }
        Err(lack) => Err(lack),
    }
}
