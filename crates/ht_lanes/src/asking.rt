//! Lanes are asked for a block.
ghost use Rattle.std.specs.Prelude.{◌≡◌, ◌<◌, List, length, slice_index_or, IfNone, IfOk, IfSome, OnErr};
ghost use Rattle.ht_lanes.specs.Calls.{GivesLaneBlock};
ghost use Rattle.ht_lanes.specs.Lanes.{AllLead, AnswersInTurn, AnswersLaneBlock, AsksFor, HasFewDue, HaveFewDue, OneLeads};
ghost use Rattle.ht_lanes.specs.Lanes.{OneMoreAt, SameBooks, of_one, own_jobs, side_of, sides_of};

use crate::lane::Lane;
use crate::lane_block::LaneBlock;
use std::alloc::AllocError;

// Asks a lane for a block, unless it is over. All lanes together have given `first` jobs.
fn ask<L: Lane<S, K>, S, K>(
    lane: &mut L,
    source: &mut S,
    most: u16,
    first: u64,
) -> Result<Option<LaneBlock<L::Block>>, AllocError>
    requires asks { AsksFor most first }
    requires few_due { HasFewDue L.due L.over most lane.old }
    ensures gives { GivesLaneBlock L.due L.rests L.over own_jobs lane.old lane.new result }
    ensures block { AnswersLaneBlock of_one most first result }
    ensures leads { (sink : K) → L.leads (side_of lane.old source.old sink) (side_of lane.new source.new sink) }
{
    if lane.is_over() {
        return Ok(None);
    }
    let own = lane.count();
    match lane.next(most, source) {
        Ok(Some(block)) => Ok(Some(LaneBlock::new(block, own, first))),
        Ok(None) => Ok(None),
        Err(lack) => Err(lack),
    }
}

// Asks the lane with this number.
fn ask_at<L: Lane<S, K>, S, K>(
    lanes: &mut [L],
    sources: &mut [S],
    at: usize,
    most: u16,
    first: u64,
) -> Result<Option<LaneBlock<L::Block>>, AllocError>
    requires lane { at < length lanes.old }
    requires source { at < length sources.old }
    requires asks { AsksFor most first }
    requires few_due { (l : L) → HasFewDue L.due L.over most (slice_index_or lanes.old at l) }
    ensures gives { (l : L)
        → GivesLaneBlock L.due L.rests L.over own_jobs (slice_index_or lanes.old at l) (slice_index_or lanes.new at l) result }
    ensures block { AnswersLaneBlock of_one most first result }
    ensures leads { (sinks : List K) → OneLeads L.leads (sides_of lanes.old sources.old sinks) (sides_of lanes.new sources.new sinks) at }
{
    ask::<L, S, K>(&mut lanes[at], &mut sources[at], most, first)
}

/// Asks the lanes from the one with this number on, until one gives a block; tells which.
pub(crate) fn ask_from<L: Lane<S, K>, S, K>(
    lanes: &mut [L],
    sources: &mut [S],
    from: usize,
    most: u16,
    first: u64,
) -> Result<Option<(usize, LaneBlock<L::Block>)>, AllocError>
    requires pairs { length sources.old ≡ length lanes.old }
    requires asks { AsksFor most first }
    requires few_due { HaveFewDue L.due L.over most lanes.old }
    ensures answers { AnswersInTurn L.over (length lanes.old) from most first lanes.new result }
    ensures due { IfOk result (λ given. IfSome given (λ asked. OneMoreAt L.due L.rests lanes.old lanes.new asked.0 asked.1.jobs)) }
    ensures none { IfOk result (λ given. IfNone given (SameBooks L.due L.rests lanes.old lanes.new)) }
    ensures memory { OnErr result (SameBooks L.due L.rests lanes.old lanes.new) }
    ensures leads { (sinks : List K) → AllLead L.leads (sides_of lanes.old sources.old sinks) (sides_of lanes.new sources.new sinks) }
{
    for at in from..lanes.len() {
        match ask_at::<L, S, K>(lanes, sources, at, most, first) {
            Ok(Some(block)) => return Ok(Some((at, block))),
            Ok(None) => {}
            Err(lack) => return Err(lack),
        }
    }
    Ok(None)
}
