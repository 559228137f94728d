//! Tallies of blocks whose least distances are found eight at a time.
ghost use Rattle.std.specs.Prelude.{◌≡◌, ◌+◌, ◌*◌, ◌^◌, ◌<◌, ◌≤◌, ◌++◌, ◌∷◌, [], List, Some, length, slice_get, unwrap_or, IfOk, IfSome, OnOk};
ghost use Rattle.ht_map.specs.Gray.{label_of};
ghost use Rattle.ht_metric.specs.Jobs.{JobView, near};
ghost use Rattle.ht_rounding.specs.Labels.{AreLabelledFrom};
ghost use Rattle.ht_frames.specs.Tallies.{IsTally};

use crate::kind::Weights;
use crate::near_kind::NearKind;
use ht_capture::FrameHead;
use ht_capture_blocks::InLanes;
use ht_feed::{Gate, InFrame, Jobs, Work, is_hard};
use ht_frames::{Tally, tally_of};
use ht_metric::Job;
use ht_rate::{Carrier, Modulation};
use ht_rounding::Labelled;
use std::alloc::{AllocError, Global};

/// Makes the tally of the weights of any block that knows its frame. Where the gate is open and there are two streams or more, the
/// least distances of jobs are found eight at a time, in lanes (crate `ht_rounding`), and the search for weights begins there; else
/// each job is run by itself, between the two calls of the gate.
#[derive(Drop)]
pub struct NearWork<'g, G> {
    alloc: Global,
    gate: &'g G,
}

impl<'g, G> NearWork<'g, G> {
    /// A work that takes memory for weights here, and calls this before and after each job.
    pub fn new(alloc: Global, gate: &'g G) -> NearWork<'g, G> {
        NearWork { alloc, gate }
    }
}

impl<'g, B: InFrame<Head = FrameHead> + InLanes, G: Gate> Work<B> for NearWork<'g, G> {
    type Answer = Tally<Weights>;

    fn answer_to(&self, block: &B) -> Result<Tally<Weights>, AllocError> {
        let head = block.head();
        let rate = &head.rate;
        if rate.streams() > 1 && self.gate.is_open() && block.size() >= 8 {
            return tally_near::<Weights, B>(self.alloc, head, rate.modulation(), block);
        }
        tally_of::<Weights, B, G>(self.alloc, head, block, self.gate)
    }

    /// Whether the last job, which speaks for all, was hard.
    fn is_hard(&self, _: &B, tally: &Tally<Weights>) -> bool {
        tally.hard
    }
}

// Goes on to the eight jobs of a block among which the one is that has `at` others before it: those that `lanes` has, from the one on
// that has `from` others before it, or where that job stands behind them, the next ones.
#[inline(always)]
fn go_on<B: InLanes>(
    modulation: Modulation,
    block: &B,
    from: &mut u16,
    lanes: &mut Labelled,
    at: u16,
)
    requires within { at < length (B.jobs block.now) }
    requires some { 8 ≤ length (B.jobs block.now) }
    requires few { length (B.jobs block.now) < 2 ^ 16 }
    requires first { from.old ≤ at }
    requires last { at ≤ from.old + 8 }
    requires labels { AreLabelledFrom (λ p. unwrap_or (label_of modulation p) 0) (B.jobs block.now) from.old lanes.old }
    ensures first { from.new ≤ at }
    ensures last { at < from.new + 8 }
    ensures labels { AreLabelledFrom (λ p. unwrap_or (label_of modulation p) 0) (B.jobs block.now) from.new lanes.new }
{
    if at - *from == 8 {
        *from = at.min(block.size() - 8);
        *lanes = block.labels(modulation, *from);
    }
}

// The least distance of the job of a block that has `at` others before it, where its lane is sure: `lanes` has eight jobs, from the
// one on that has `from` others before it.
#[inline(always)]
fn least_in<B: Jobs>(
    modulation: Modulation,
    block: &B,
    lanes: &Labelled,
    from: u16,
    at: u16,
) -> Option<u64>
    requires first { from ≤ at }
    requires last { at < from + 8 }
    requires labels { AreLabelledFrom (λ p. unwrap_or (label_of modulation p) 0) (B.jobs block.now) from lanes.now }
    ensures { (job : JobView) → Some job ≡ slice_get (B.jobs block.now) at → IfSome result (λ d. d ≡ (near job).distance) }
{
    let lane = usize::from(at - from);
    if lanes.sure[lane] == 0 {
        return None;
    }
    Some(u64::from(lanes.distance[lane]))
}

// Adds one more job, and answers its distance. `least` is that of its first nearest vector, where it is known. The only error is lack
// of memory.
#[inline(always)]
fn add<K: NearKind>(tally: &mut Tally<K>, job: &Job, least: Option<u64>) -> Result<u128, AllocError>
    requires few { tally.old.jobs + 1 < 2 ^ 16 }
    requires bounded { tally.old.data_sum + tally.old.pilot_sum ≤ tally.old.jobs * 2 ^ 66 }
    requires long { length tally.old.places ≡ length tally.old.values.items }
    requires least { IfSome least (λ d. d ≡ (near job.now).distance) }
    ensures head { OnOk result (tally.new.head ≡ tally.old.head) }
    ensures added { OnOk result ((jobs : List JobView)
        → IsTally K.plan tally.old.head jobs tally.old.jobs tally.old.data_sum tally.old.pilot_sum tally.old.places tally.old.values.items
        → IsTally K.plan tally.old.head (jobs ++ job.now ∷ []) tally.new.jobs tally.new.data_sum tally.new.pilot_sum tally.new.places
        tally.new.values.items) }
    ensures long { OnOk result (length tally.new.places ≡ length tally.new.values.items) }
{
    let place = job.place();
    let carrier = K::carries(&tally.head, place.carrier);
    let behind = tally.values.len();
    let distance = K::find_near(&tally.head, job, carrier, least, &mut tally.values)?;
    tally.jobs += 1;
    match carrier {
        Carrier::Data(m) => {
            let at = K::place(&tally.head, place.symbol, m);
            tally.places.add(at, tally.values.len() - behind)?;
            tally.data_sum += distance;
        }
        Carrier::Pilot(_) => {
            tally.pilot_sum += distance;
        }
    }
    Ok(distance)
}

// What the jobs of a block come to, which are of a frame with this head. The only error is lack of memory.
#[inline(never)]
fn tally_near<K: NearKind, B: InLanes>(
    alloc: Global,
    head: &K::Head,
    modulation: Modulation,
    block: &B,
) -> Result<Tally<K>, AllocError>
    requires some { 8 ≤ length (B.jobs block.now) }
    requires few { length (B.jobs block.now) < 2 ^ 16 }
    ensures { IfOk result (λ t. IsTally K.plan t.head (B.jobs block.now) t.jobs t.data_sum t.pilot_sum t.places t.values.items) }
{
    let size = block.size();
    let mut tally = Tally::<K>::none(alloc, head, size)?;
    let mut hard = false;
    let mut from = 0;
    let mut lanes = block.labels(modulation, 0);
    for at in 0..size {
        go_on(modulation, block, &mut from, &mut lanes, at);
        let job = block.job(at);
        let least = least_in(modulation, block, &lanes, from, at);
        let distance = add(&mut tally, &job, least)?;
        hard = at + 1 == size && is_hard(&job, distance);
    }
    Ok(Tally { hard, ..tally })
}
