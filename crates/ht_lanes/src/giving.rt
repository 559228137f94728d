//! The next block of several lanes.
ghost use Rattle.std.specs.Prelude.{◌≡◌, ◌<◌, List, [], ◌∷◌, ◌++◌, length};
ghost use Rattle.circular_buffer.specs.Buffer.{buffer};
ghost use Rattle.ht_lanes.specs.Lanes.{AllLead, GivesNext, IsBooked, MayBeAsked, due_of, sides_of};

use crate::asking::ask_from;
use crate::lane::Lane;
use crate::lane_block::LaneBlock;
use crate::lane_due::LaneDue;
use circular_buffer::HeapCircularBuffer;
use ht_feed::{Jobs, make_room};
use std::alloc::AllocError;

/// Gives the next block: lanes are asked in turn, the one with the number `turn` first, until one gives a block of at
/// most `most` jobs. All lanes together have given `first` jobs. Tells which lane it was, or that none gives a block
/// any more.
pub(crate) fn give<L: Lane<S, K>, S, K>(
    lanes: &mut [L],
    sources: &mut [S],
    due: &mut HeapCircularBuffer<LaneDue<L::Block>>,
    turn: usize,
    most: u16,
    first: u64,
) -> Result<Option<(usize, LaneBlock<L::Block>)>, AllocError>
    requires asked { MayBeAsked L.due L.rests lanes.old (length sources.old) due.old.items most first }
    ensures gives { GivesNext L.over (length lanes.old) 0 most first lanes.new due.old.items due.new.items result }
    ensures booked { IsBooked L.due L.rests lanes.new due.new.items }
    ensures leads { (sinks : List K) → AllLead L.leads (sides_of lanes.old sources.old sinks) (sides_of lanes.new sources.new sinks) }
{
    if make_room(due).is_err() {
        return Err(AllocError);
    }
    match give_from::<L, S, K>(lanes, sources, due, turn, most, first) {
        Ok(Some(asked)) => return Ok(Some(asked)),
        Ok(None) => {}
        Err(lack) => return Err(lack),
    }
    give_from::<L, S, K>(lanes, sources, due, 0, most, first)
}

// Asks the lanes from this one on, where the ring has room for a block.
fn give_from<L: Lane<S, K>, S, K>(
    lanes: &mut [L],
    sources: &mut [S],
    due: &mut HeapCircularBuffer<LaneDue<L::Block>>,
    from: usize,
    most: u16,
    first: u64,
) -> Result<Option<(usize, LaneBlock<L::Block>)>, AllocError>
    requires asked { MayBeAsked L.due L.rests lanes.old (length sources.old) due.old.items most first }
    requires space { length due.old.items < due.old.capacity }
    ensures gives { GivesNext L.over (length lanes.old) from most first lanes.new due.old.items due.new.items result }
    ensures booked { IsBooked L.due L.rests lanes.new due.new.items }
    ensures leads { (sinks : List K) → AllLead L.leads (sides_of lanes.old sources.old sinks) (sides_of lanes.new sources.new sinks) }
    ensures capacity { due.new.capacity ≡ due.old.capacity }
{
    match ask_from::<L, S, K>(lanes, sources, from, most, first) {
        Ok(Some((lane, block))) => {
            keep(due, lane, &block);
            Ok(Some((lane, block)))
        }
        Ok(None) => Ok(None),
        Err(lack) => Err(lack),
    }
}

// Keeps a block that is due behind the others.
fn keep<B: Jobs>(due: &mut HeapCircularBuffer<LaneDue<B>>, lane: usize, block: &LaneBlock<B>)
    requires { length due.old.items < due.old.capacity }
    ensures { due.new ≡ buffer (due.old.items ++ due_of lane block.now ∷ []) due.old.capacity }
{
    let Ok(()) = due.try_push_back(LaneDue::of(lane, block)) else {
        unreachable!();
    };
}
