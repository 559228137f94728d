//! Tallies of blocks whose jobs are found eight at a time.
ghost use Rattle.std.specs.Prelude.{◌≡◌, ◌+◌, ◌-◌, ◌*◌, ◌/◌, ◌%◌, ◌^◌, ◌<◌, ◌≤◌, ◌++◌, ◌∷◌, [], ℕ, List, true, length, slice_index, take, IfOk, OnOk};
ghost use Rattle.std.specs.List.{range_with_len};
ghost use Rattle.ht_metric.specs.Jobs.{JobView};
ghost use Rattle.ht_rounding.specs.Labels.{AreLabelledFrom, labels_in};
ghost use Rattle.ht_frames.specs.Tallies.{IsTally};
ghost use Rattle.ht_results.specs.Folding.{label_at};
ghost use Rattle.ht_eights.specs.InLanes.{HasFirst, jobs_behind, lane_labels};

use crate::label_kind::LabelKind;
use ht_capture_blocks::InLanes;
use ht_feed::{Gate, InFrame, Jobs, OpenGate, Work, is_hard};
use ht_frames::{Tally, tally_of};
use ht_metric::Place;
use ht_rate::{Carrier, Modulation};
use ht_rounding::Labelled;
use std::alloc::{AllocError, Global};
use std::marker::PhantomData;

/// Makes the tally of any block that knows its frame. Where the gate is open, jobs are found eight at a time, in lanes (crate
/// `ht_rounding`); else each by itself, between the two calls of the gate.
#[derive(Drop)]
pub struct LaneWork<'g, K, G> {
    alloc: Global,
    /// What is called before and after each job.
    pub gate: &'g G,
    kind: PhantomData<K>,
}

impl<'g, K, G> LaneWork<'g, K, G> {
    /// A work that takes memory for labels here, and calls this before and after each job.
    pub fn new(alloc: Global, gate: &'g G) -> LaneWork<'g, K, G>
        ensures { result.gate.now ≡ gate.now }
    {
        LaneWork {
            alloc,
            gate,
            kind: PhantomData,
        }
    }
}

impl<'g, K: LabelKind, B: InFrame<Head = K::Head> + InLanes, G: Gate> Work<B>
    for LaneWork<'g, K, G> {
    type Answer = Tally<K>;

    fn answer_to(&self, block: &B) -> Result<Tally<K>, AllocError> {
        let head = block.head();
        if self.gate.is_open() {
            return tally_in_lanes(self.alloc, head, block);
        }
        tally_of::<K, B, G>(self.alloc, head, block, self.gate)
    }

    /// Whether the last job, which speaks for all, was hard.
    fn is_hard(&self, _: &B, tally: &Tally<K>) -> bool {
        tally.hard
    }
}

// The last eight bits.
#[inline(always)]
fn octet(number: u32) -> u8
    ensures { result ≡ number % 256 }
{
    (number % 256) as u8
}

// Puts the labels of a lane from this place on. Those of streams that there aren't stand behind them, and mean nothing.
#[inline(always)]
fn put_lane(octets: &mut [u8; 32], at: usize, lanes: &Labelled, k: usize)
    requires lane { k < 8 }
    requires room { at + 4 ≤ 32 }
    requires most { lanes.now.streams ≤ 4 }
    ensures { take (at + lanes.now.streams) octets.new ≡ take at octets.old ++ labels_in lanes.now k }
{
    octets[at] = octet(lanes.first[k]);
    octets[at + 1] = octet(lanes.second[k]);
    octets[at + 2] = octet(lanes.third[k]);
    octets[at + 3] = octet(lanes.fourth[k]);
}

// The labels of eight lanes, lane by lane. What stands behind them means nothing.
#[inline(always)]
fn octets_of(lanes: &Labelled, streams: u8) -> [u8; 32]
    requires streams { streams ≡ lanes.now.streams }
    requires most { streams ≤ 4 }
    ensures { take (8 * streams) result ≡ lane_labels lanes.now 0 8 }
{
    let mut octets = [0; 32];
    for k in 0..8 {
        put_lane(&mut octets, k * usize::from(streams), lanes, k);
    }
    octets
}

// Puts the labels of so many lanes, from the lane `first` on, behind others. The number of streams is told by itself, so that
// what is the same for all lanes is known.
#[inline(always)]
fn push_from(
    labels: &mut Vec<u8>,
    lanes: &Labelled,
    streams: u8,
    first: u16,
    jobs: u16,
) -> Result<(), AllocError>
    requires streams { streams ≡ lanes.now.streams }
    requires most { streams ≤ 4 }
    requires within { first + jobs ≤ 8 }
    ensures { OnOk result (labels.new.items ≡ labels.old.items ++ lane_labels lanes.now first jobs) }
{
    let octets = octets_of(lanes, streams);
    let at = usize::from(first) * usize::from(streams);
    let count = usize::from(jobs) * usize::from(streams);
    labels.extend_from_slice(&octets[at..at + count])
}

// The same for any number of streams.
#[inline(always)]
fn push_lanes(
    labels: &mut Vec<u8>,
    lanes: &Labelled,
    first: u16,
    jobs: u16,
) -> Result<(), AllocError>
    requires some { 1 ≤ lanes.now.streams }
    requires most { lanes.now.streams ≤ 4 }
    requires within { first + jobs ≤ 8 }
    ensures { OnOk result (labels.new.items ≡ labels.old.items ++ lane_labels lanes.now first jobs) }
{
    match lanes.streams {
        1 => push_from(labels, lanes, 1, first, jobs),
        2 => push_from(labels, lanes, 2, first, jobs),
        3 => push_from(labels, lanes, 3, first, jobs),
        _ => push_from(labels, lanes, 4, first, jobs),
    }
}

/// The labels of the first nearest vectors of eight jobs of a block, from the one on that has `at` others before it, with their
/// squared distances, in the lanes that are sure; no clause says which are (IEEE Std 802.11-2012, clause 20.3.11.9).
#[inline(always)]
pub fn lanes_from<B: InLanes>(modulation: Modulation, block: &B, at: u16) -> Labelled
    requires within { at + 8 ≤ length (B.jobs block.now) }
    ensures some { 1 ≤ result.streams }
    ensures most { result.streams ≤ 4 }
    ensures labels { AreLabelledFrom (label_at modulation) (B.jobs block.now) at result }
{
    block.labels(modulation, at)
}

// A run of jobs on data subcarriers that follow one another: the place in the frame of its first label, the number of its jobs,
// and the sum of their squared distances.
#[derive(Clone, Copy)]
struct Run {
    place: usize,
    jobs: u16,
    distance: u64,
}

// The squared distance in a lane.
#[inline(always)]
fn distance_in(lanes: &Labelled, k: u16) -> u64
    requires { k < 8 }
    ensures value { result ≡ slice_index lanes.now.distance k }
    ensures few { result < 2 ^ 32 }
{
    u64::from(lanes.distance[usize::from(k)])
}

/// Whether the lane k, 0 to 7, is sure.
#[inline(always)]
pub fn is_sure(lanes: &Labelled, k: u16) -> bool
    requires { k < 8 }
    ensures { result ≡ true → 0 < slice_index lanes.now.sure k }
{
    lanes.sure[usize::from(k)] != 0
}

// Whether a place is that of so many subcarriers behind another one, in the same symbol.
#[inline(always)]
fn is_behind(place: Place, start: Place, jobs: u16) -> bool
    ensures symbol { result ≡ true → place.symbol ≡ start.symbol }
    ensures carrier { result ≡ true → place.carrier ≡ start.carrier + jobs }
{
    place.symbol == start.symbol
        && u32::from(place.carrier) == u32::from(start.carrier) + u32::from(jobs)
}

// The longest run of eight jobs of a block that begins in the lane `first`, and whose lanes are sure. The eight are those from the
// one on that has `at` others before it.
#[inline(always)]
fn run_from<K: LabelKind, B: Jobs>(
    head: &K::Head,
    block: &B,
    at: u16,
    lanes: &Labelled,
    first: u16,
) -> Run
    requires first { first < 8 }
    requires within { at + 8 ≤ length (B.jobs block.now) }
    requires few { length (B.jobs block.now) < 2 ^ 16 }
    requires most { lanes.now.streams ≤ 4 }
    requires streams { lanes.now.streams ≡ K.plan.width head.now }
    requires labels { AreLabelledFrom (label_at (K.modulation_in head.now)) (B.jobs block.now) at lanes.now }
    ensures within { first + result.jobs ≤ 8 }
    ensures few { result.distance ≤ result.jobs * 2 ^ 32 }
    ensures is { IsTally K.plan head.now (jobs_behind (B.jobs block.now) (at + first) result.jobs) result.jobs result.distance 0
        (range_with_len result.place (result.jobs * lanes.now.streams)) (lane_labels lanes.now first result.jobs) }
{
    let start = block.place_at(at + first);
    let Carrier::Data(m) = K::carries(head, start.carrier) else {
        return Run {
            place: 0,
            jobs: 0,
            distance: 0,
        };
    };
    let place = K::place(head, start.symbol, m);
    let most = u16::from(K::data_run(head, start.carrier));
    let mut distance = 0;
    for k in first..8 {
        let jobs = k - first;
        if jobs >= most || !is_sure(lanes, k) || !is_behind(block.place_at(at + k), start, jobs) {
            return Run {
                place,
                jobs,
                distance,
            };
        }
        distance += distance_in(lanes, k);
    }
    Run {
        place,
        jobs: 8 - first,
        distance,
    }
}

// Adds the longest run of eight jobs of a block that begins in the lane `first`, and answers how many jobs it has: none where that
// lane isn't sure, or its job is on a pilot subcarrier.
#[inline(always)]
fn add_run<K: LabelKind, B: Jobs>(
    tally: &mut Tally<K>,
    block: &B,
    at: u16,
    lanes: &Labelled,
    first: u16,
) -> Result<u16, AllocError>
    requires first { first < 8 }
    requires within { at + 8 ≤ length (B.jobs block.now) }
    requires few { length (B.jobs block.now) < 2 ^ 16 }
    requires some { 1 ≤ lanes.now.streams }
    requires most { lanes.now.streams ≤ 4 }
    requires labels { AreLabelledFrom (label_at (K.modulation_in tally.old.head)) (B.jobs block.now) at lanes.now }
    requires is { HasFirst K.plan (B.jobs block.now)
        (at + first) tally.old.head tally.old.head tally.old.jobs tally.old.data_sum tally.old.pilot_sum tally.old.places tally.old.values.items }
    ensures within { IfOk result (λ jobs. first + jobs ≤ 8) }
    ensures is { IfOk result (λ jobs. HasFirst K.plan (B.jobs block.now)
        (at + first + jobs) tally.old.head tally.new.head tally.new.jobs tally.new.data_sum tally.new.pilot_sum tally.new.places tally.new.values.items) }
{
    if lanes.streams != K::width(&tally.head) {
        return Ok(0);
    }
    let run = run_from::<K, B>(&tally.head, block, at, lanes, first);
    if run.jobs > 0 {
        push_lanes(&mut tally.values, lanes, first, run.jobs)?;
        tally.places.add(
            run.place,
            usize::from(run.jobs) * usize::from(lanes.streams),
        )?;
        tally.jobs += run.jobs;
        tally.data_sum += u128::from(run.distance);
    }
    Ok(run.jobs)
}

// Adds the job of a block that has `at` others before it, found by itself, and answers its distance. The only error is lack of
// memory.
fn add_alone<K: LabelKind, B: Jobs>(
    tally: &mut Tally<K>,
    block: &B,
    at: u16,
) -> Result<u128, AllocError>
    requires within { at < length (B.jobs block.now) }
    requires few { length (B.jobs block.now) < 2 ^ 16 }
    requires is { HasFirst K.plan (B.jobs block.now) at tally.old.head tally.old.head tally.old.jobs tally.old.data_sum tally.old.pilot_sum tally.old.places
        tally.old.values.items }
    ensures { OnOk result (HasFirst K.plan (B.jobs block.now)
        (at + 1) tally.old.head tally.new.head tally.new.jobs tally.new.data_sum tally.new.pilot_sum tally.new.places tally.new.values.items) }
{
    let job = block.job(at);
    tally.add(&job, &OpenGate)
}

// What was added of eight jobs: the number of lanes, 1 or more, and the squared distance of the last job.
#[derive(Clone, Copy)]
struct Added {
    lanes: u16,
    distance: u128,
}

// Adds the next of eight jobs of a block, from the lane k on: a run that lanes found, or where there is none, one job by itself.
#[inline(always)]
fn add_next<K: LabelKind, B: Jobs>(
    tally: &mut Tally<K>,
    block: &B,
    at: u16,
    lanes: &Labelled,
    k: u16,
) -> Result<Added, AllocError>
    requires lane { k < 8 }
    requires within { at + 8 ≤ length (B.jobs block.now) }
    requires few { length (B.jobs block.now) < 2 ^ 16 }
    requires some { 1 ≤ lanes.now.streams }
    requires most { lanes.now.streams ≤ 4 }
    requires labels { AreLabelledFrom (label_at (K.modulation_in tally.old.head)) (B.jobs block.now) at lanes.now }
    requires is { HasFirst K.plan (B.jobs block.now)
        (at + k) tally.old.head tally.old.head tally.old.jobs tally.old.data_sum tally.old.pilot_sum tally.old.places tally.old.values.items }
    ensures some { IfOk result (λ added. 1 ≤ added.lanes) }
    ensures within { IfOk result (λ added. k + added.lanes ≤ 8) }
    ensures is { IfOk result (λ added. HasFirst K.plan (B.jobs block.now)
        (at + k + added.lanes) tally.old.head tally.new.head tally.new.jobs tally.new.data_sum tally.new.pilot_sum tally.new.places tally.new.values.items) }
{
    let jobs = add_run(tally, block, at, lanes, k)?;
    if jobs == 0 {
        let distance = add_alone(tally, block, at + k)?;
        return Ok(Added { lanes: 1, distance });
    }
    let distance = u128::from(distance_in(lanes, k + jobs - 1));
    Ok(Added {
        lanes: jobs,
        distance,
    })
}

// Adds the last jobs of eight, from the lane `first` on: those of a block from the one on that has `at` others before it. It
// answers the distance of the last one.
fn add_lanes<K: LabelKind, B: InLanes>(
    tally: &mut Tally<K>,
    block: &B,
    at: u16,
    first: u16,
) -> Result<u128, AllocError>
    requires first { first < 8 }
    requires within { at + 8 ≤ length (B.jobs block.now) }
    requires few { length (B.jobs block.now) < 2 ^ 16 }
    requires is { HasFirst K.plan (B.jobs block.now)
        (at + first) tally.old.head tally.old.head tally.old.jobs tally.old.data_sum tally.old.pilot_sum tally.old.places tally.old.values.items }
    ensures { OnOk result (HasFirst K.plan (B.jobs block.now)
        (at + 8) tally.old.head tally.new.head tally.new.jobs tally.new.data_sum tally.new.pilot_sum tally.new.places tally.new.values.items) }
{
    let lanes = lanes_from(K::modulation(&tally.head), block, at);
    let mut distance = 0;
    let mut k = first;
    while k < 8 {
        let added = add_next(tally, block, at, &lanes, k)?;
        k += added.lanes;
        distance = added.distance;
    }
    Ok(distance)
}

// Adds all jobs of a block that has fewer than eight, each by itself, and answers the distance of the last one.
fn add_each<K: LabelKind, B: Jobs>(
    tally: &mut Tally<K>,
    block: &B,
    size: u16,
) -> Result<u128, AllocError>
    requires size { size ≡ length (B.jobs block.now) }
    requires is { HasFirst K.plan (B.jobs block.now) 0 tally.old.head tally.old.head tally.old.jobs tally.old.data_sum tally.old.pilot_sum tally.old.places
        tally.old.values.items }
    ensures { OnOk result (HasFirst K.plan (B.jobs block.now) size tally.old.head tally.new.head tally.new.jobs tally.new.data_sum tally.new.pilot_sum
        tally.new.places tally.new.values.items) }
{
    let mut distance = 0;
    for at in 0..size {
        distance = add_alone(tally, block, at)?;
    }
    Ok(distance)
}

// Adds the jobs of a block behind its eights, the last of which has this distance, and answers that of the last job. Where the
// block has eight jobs, the last eight are taken once more, of which the first ones were added before.
fn add_rest<K: LabelKind, B: InLanes>(
    tally: &mut Tally<K>,
    block: &B,
    size: u16,
    distance: u128,
) -> Result<u128, AllocError>
    requires size { size ≡ length (B.jobs block.now) }
    requires is { HasFirst K.plan (B.jobs block.now)
        (8 * (size / 8)) tally.old.head tally.old.head tally.old.jobs tally.old.data_sum tally.old.pilot_sum tally.old.places tally.old.values.items }
    ensures { OnOk result (HasFirst K.plan (B.jobs block.now) size tally.old.head tally.new.head tally.new.jobs tally.new.data_sum tally.new.pilot_sum
        tally.new.places tally.new.values.items) }
{
    let rest = size % 8;
    if rest == 0 {
        return Ok(distance);
    }
    if size < 8 {
        return add_each(tally, block, size);
    }
    add_lanes(tally, block, size - 8, 8 - rest)
}

// What the jobs of a block come to, which are of a frame with this head. The only error is lack of memory. It stays out of line,
// so that what it needs costs nothing where jobs are found by themselves.
#[inline(never)]
fn tally_in_lanes<K: LabelKind, B: InLanes>(
    alloc: Global,
    head: &K::Head,
    block: &B,
) -> Result<Tally<K>, AllocError>
    requires few { length (B.jobs block.now) < 2 ^ 16 }
    ensures { IfOk result (λ t. IsTally K.plan t.head (B.jobs block.now) t.jobs t.data_sum t.pilot_sum t.places t.values.items) }
{
    let size = block.size();
    let mut tally = Tally::none(alloc, head, size)?;
    let mut distance = 0;
    for eight in 0..size / 8 {
        distance = add_lanes(&mut tally, block, 8 * eight, 0)?;
    }
    distance = add_rest(&mut tally, block, size, distance)?;
    tally.hard = size > 0 && is_hard(&block.job(size - 1), distance);
    Ok(tally)
}
