//! Lanes put what they kept back.
ghost use Rattle.std.specs.Prelude.{◌≡◌, ◌<◌, List, length, slice_index_or};
ghost use Rattle.ht_lanes.specs.Calls.{FinishesLane};
ghost use Rattle.ht_lanes.specs.Lanes.{AllLead, AreFinished, AreOver, HaveNone, OneLeads, sides_of};

use crate::lane::Lane;

// Has the lane with this number put what it keeps back.
fn finish_at<L: Lane<S, K>, S, K>(lanes: &mut [L], sinks: &mut [K], at: usize)
    requires lane { at < length lanes.old }
    requires sink { at < length sinks.old }
    ensures finishes { (l : L)
        → FinishesLane L.due L.rests L.over L.finished (slice_index_or lanes.old at l) (slice_index_or lanes.new at l) }
    ensures leads { (sources : List S) → OneLeads L.leads (sides_of lanes.old sources sinks.old) (sides_of lanes.new sources sinks.new) at }
{
    lanes[at].finish(&mut sinks[at]);
}

/// Has each lane put what it keeps back into its own sink, in their order, once no answers come any more. A lane that
/// rests puts nothing, and one whose sink fails or that runs out of memory rests from then on.
pub fn finish_lanes<L: Lane<S, K>, S, K>(lanes: &mut [L], sinks: &mut [K])
    requires pairs { length sinks.old ≡ length lanes.old }
    ensures finished { AreFinished L.finished L.rests lanes.new }
    ensures over { AreOver L.over 0 lanes.old → AreOver L.over 0 lanes.new }
    ensures none_due { HaveNone L.due L.rests lanes.old → HaveNone L.due L.rests lanes.new }
    ensures leads { (sources : List S) → AllLead L.leads (sides_of lanes.old sources sinks.old) (sides_of lanes.new sources sinks.new) }
{
    for at in 0..lanes.len() {
        finish_at::<L, S, K>(lanes, sinks, at);
    }
}
