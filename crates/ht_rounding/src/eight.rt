//! The labels of eight jobs.
ghost use Rattle.std.specs.Prelude.{◌≡◌, ◌<◌, ◌≤◌, ℕ, true, length, replicate, slice_index, slice_index_or, unwrap_or};
ghost use Rattle.ht_map.specs.Gray.{label_of};
ghost use Rattle.ht_metric.specs.Jobs.{JobView};
ghost use Rattle.ht_rounding.specs.InLanes.{IsSmall};
ghost use Rattle.ht_rounding.specs.Labels.{HasJob, IsLabelled, IsUnsure, i_levels, label_by, q_levels};
ghost use Rattle.ht_rounding.specs.Loading.{HaveStreams, IsPlain, no_job};

use crate::block::{have_streams, ladder_of};
use crate::labels::labels;
use crate::levels::Levels;
use crate::loading::load;
use crate::streams::{Channel, SampleLanes, detect_four, detect_one, detect_three, detect_two};
use crate::words::lesser;
use ht_metric::Job;
use ht_pam::{Grid, Ladder};
use ht_rate::Modulation;
use std::simd::prelude::*;

/// Eight jobs of the same number of streams, in lanes.
#[derive(Clone, Copy, Debug)]
pub struct Eight {
    /// Their channels.
    pub channel: Channel,
    /// What was received.
    pub samples: SampleLanes,
    /// Positive in the lanes whose jobs have all points of their constellations.
    pub plain: u32x8,
}

/// What lanes say of eight jobs.
#[derive(Clone, Copy, Debug)]
pub struct Labelled {
    /// The number of streams, 1 to 4.
    pub streams: u8,
    /// Positive in the lanes that are sure. The others say nothing.
    pub sure: [u32; 8],
    /// The squared distances of the first nearest vectors.
    pub distance: [u32; 8],
    /// The labels of the points of stream 1, in the last eight bits.
    pub first: [u32; 8],
    /// The labels of stream 2. Where there is no such stream, what stands here means nothing.
    pub second: [u32; 8],
    /// The labels of stream 3.
    pub third: [u32; 8],
    /// The labels of stream 4.
    pub fourth: [u32; 8],
}

// The labels of eight jobs of one stream.
#[inline(always)]
fn label_one(i: Levels, q: Levels, eight: &Eight) -> Labelled
    requires { IsSmall eight.now.channel }
    ensures streams { result.streams ≡ 1 }
    ensures labels { (k : ℕ) (job : JobView) → k < 8 → 0 < slice_index result.sure k → HasJob i q eight.now 1 k job
        → IsLabelled (label_by i q) result k job }
{
    let found = detect_one(i, q, &eight.channel, &eight.samples);
    let first = labels(i, q, &found).to_array();
    Labelled {
        streams: 1,
        sure: lesser(found.spare, eight.plain).to_array(),
        distance: found.rho.to_array(),
        first,
        second: first,
        third: first,
        fourth: first,
    }
}

// The labels of eight jobs of two streams.
#[inline(always)]
fn label_two(i: Levels, q: Levels, eight: &Eight) -> Labelled
    requires { IsSmall eight.now.channel }
    ensures streams { result.streams ≡ 2 }
    ensures labels { (k : ℕ) (job : JobView) → k < 8 → 0 < slice_index result.sure k → HasJob i q eight.now 2 k job
        → IsLabelled (label_by i q) result k job }
{
    let found = detect_two(i, q, &eight.channel, &eight.samples);
    let first = labels(i, q, &found.first).to_array();
    Labelled {
        streams: 2,
        sure: lesser(found.first.spare, eight.plain).to_array(),
        distance: found.first.rho.to_array(),
        first,
        second: labels(i, q, &found.second).to_array(),
        third: first,
        fourth: first,
    }
}

// The labels of eight jobs of three streams.
#[inline(always)]
fn label_three(i: Levels, q: Levels, eight: &Eight) -> Labelled
    requires { IsSmall eight.now.channel }
    ensures streams { result.streams ≡ 3 }
    ensures labels { (k : ℕ) (job : JobView) → k < 8 → 0 < slice_index result.sure k → HasJob i q eight.now 3 k job
        → IsLabelled (label_by i q) result k job }
{
    let found = detect_three(i, q, &eight.channel, &eight.samples);
    let first = labels(i, q, &found.first).to_array();
    Labelled {
        streams: 3,
        sure: lesser(found.first.spare, eight.plain).to_array(),
        distance: found.first.rho.to_array(),
        first,
        second: labels(i, q, &found.second).to_array(),
        third: labels(i, q, &found.third).to_array(),
        fourth: first,
    }
}

// The labels of eight jobs of four streams.
#[inline(always)]
fn label_four(i: Levels, q: Levels, eight: &Eight) -> Labelled
    requires { IsSmall eight.now.channel }
    ensures streams { result.streams ≡ 4 }
    ensures labels { (k : ℕ) (job : JobView) → k < 8 → 0 < slice_index result.sure k → HasJob i q eight.now 4 k job
        → IsLabelled (label_by i q) result k job }
{
    let found = detect_four(i, q, &eight.channel, &eight.samples);
    Labelled {
        streams: 4,
        sure: lesser(found.first.spare, eight.plain).to_array(),
        distance: found.first.rho.to_array(),
        first: labels(i, q, &found.first).to_array(),
        second: labels(i, q, &found.second).to_array(),
        third: labels(i, q, &found.third).to_array(),
        fourth: labels(i, q, &found.fourth).to_array(),
    }
}

// The labels of eight jobs of so many streams.
#[inline(always)]
fn label_by_levels(i: Levels, q: Levels, streams: u8, eight: &Eight) -> Labelled
    requires small { IsSmall eight.now.channel }
    requires some { 1 ≤ streams }
    requires few { streams ≤ 4 }
    ensures streams { result.streams ≡ streams }
    ensures labels { (k : ℕ) (job : JobView) → k < 8 → 0 < slice_index result.sure k → HasJob i q eight.now streams k job
        → IsLabelled (label_by i q) result k job }
{
    if streams == 1 {
        return label_one(i, q, eight);
    }
    if streams == 2 {
        return label_two(i, q, eight);
    }
    if streams == 3 {
        return label_three(i, q, eight);
    }
    label_four(i, q, eight)
}

/// The labels of the first nearest vectors of eight jobs of one to four streams, and their squared distances, in the lanes
/// that are sure (IEEE Std 802.11-2012, clause 20.3.11.9). Diagonals are below 2^16. A lane of which nothing is known may hold
/// anything else.
pub fn label_lanes(modulation: Modulation, streams: u8, eight: &Eight) -> Labelled
    requires small { IsSmall eight.now.channel }
    requires some { 1 ≤ streams }
    requires few { streams ≤ 4 }
    ensures streams { result.streams ≡ streams }
    ensures labels { (k : ℕ) (job : JobView) → k < 8 → 0 < slice_index result.sure k
        → HasJob (i_levels modulation) (q_levels modulation) eight.now streams k job
        → IsLabelled (λ p. unwrap_or (label_of modulation p) 0) result k job }
{
    match modulation {
        Modulation::Bpsk => label_by_levels(Levels::Two, Levels::One, streams, eight),
        Modulation::Qpsk => label_by_levels(Levels::Two, Levels::Two, streams, eight),
        Modulation::Qam16 => label_by_levels(Levels::Four, Levels::Four, streams, eight),
        Modulation::Qam64 => label_by_levels(Levels::Eight, Levels::Eight, streams, eight),
    }
}

// The levels of I and of Q.
pub(crate) fn levels_by(modulation: Modulation) -> (Levels, Levels)
    ensures i { result.0 ≡ i_levels modulation }
    ensures q { result.1 ≡ q_levels modulation }
{
    match modulation {
        Modulation::Bpsk => (Levels::Two, Levels::One),
        Modulation::Qpsk => (Levels::Two, Levels::Two),
        Modulation::Qam16 => (Levels::Four, Levels::Four),
        Modulation::Qam64 => (Levels::Eight, Levels::Eight),
    }
}

// Whether each stream of a grid has all these levels.
#[inline(always)]
fn has_all(grid: &Grid, streams: u8, i: Ladder, q: Ladder) -> bool
    requires { streams ≡ length grid.now }
    ensures { result ≡ true → grid.now ≡ replicate streams (record { i = i; q = q }) }
{
    for stream in 0..streams {
        if grid.i_ladder(stream + 1) != i || grid.q_ladder(stream + 1) != q {
            return false;
        }
    }
    true
}

// 1 where a lane can answer a job whose constellations have all these levels, and 0 elsewhere.
#[inline(always)]
pub(crate) fn plainness(i: Levels, q: Levels, streams: u8, job: &Job) -> u32
    requires { streams ≡ length job.now.system }
    ensures { 0 < result → IsPlain i q streams job.now }
{
    let grid = job.grid();
    u32::from(has_all(grid, streams, ladder_of(i), ladder_of(q)))
}

// In lane k, 1 where a lane can answer job k, whose constellations have all these levels, and 0 elsewhere.
#[inline(always)]
fn plain_lanes(i: Levels, q: Levels, streams: u8, jobs: &[Job]) -> u32x8
    requires jobs { length jobs.now ≡ 8 }
    requires streams { HaveStreams streams jobs.now }
    ensures { (k : ℕ) → k < 8 → 0 < slice_index result k → IsPlain i q streams (slice_index_or jobs.now k no_job) }
{
    let mut lanes = [0u32; 8];
    for k in 0..8 {
        lanes[k] = plainness(i, q, streams, &jobs[k]);
    }
    u32x8::from_array(lanes)
}

// Eight jobs of so many streams.
#[inline(always)]
fn gathered(i: Levels, q: Levels, streams: u8, jobs: &[Job]) -> Eight
    requires jobs { length jobs.now ≡ 8 }
    requires streams { HaveStreams streams jobs.now }
    ensures small { IsSmall result.channel }
    ensures jobs { (k : ℕ) → k < 8 → HasJob i q result streams k (slice_index_or jobs.now k no_job) }
{
    let loaded = load(jobs, streams);
    Eight {
        channel: loaded.channel,
        samples: loaded.samples,
        plain: plain_lanes(i, q, streams, jobs),
    }
}

// Eight jobs of so many streams, with code of its own for each number of streams.
#[inline(always)]
fn gathered_by(i: Levels, q: Levels, streams: u8, jobs: &[Job]) -> Eight
    requires jobs { length jobs.now ≡ 8 }
    requires streams { HaveStreams streams jobs.now }
    ensures small { IsSmall result.channel }
    ensures jobs { (k : ℕ) → k < 8 → HasJob i q result streams k (slice_index_or jobs.now k no_job) }
{
    if streams == 1 {
        return gathered(i, q, 1, jobs);
    }
    if streams == 2 {
        return gathered(i, q, 2, jobs);
    }
    if streams == 4 {
        return gathered(i, q, 4, jobs);
    }
    gathered(i, q, streams, jobs)
}

// What lanes say where none is sure.
pub(crate) fn unsure(streams: u8) -> Labelled
    ensures streams { result.streams ≡ streams }
    ensures sure { IsUnsure result }
{
    let nothing = [0u32; 8];
    Labelled {
        streams,
        sure: nothing,
        distance: nothing,
        first: nothing,
        second: nothing,
        third: nothing,
        fourth: nothing,
    }
}

/// The labels of the first nearest vectors of eight jobs of any kind, no more and no fewer, and their squared distances: lane k
/// has those of job k (IEEE Std 802.11-2012, clause 20.3.11.9).
/// None is sure where the jobs don't all have the same number of streams; else the sure ones are among those whose jobs have all
/// points of this modulation on each stream.
pub fn label_eight(modulation: Modulation, jobs: &[Job]) -> Labelled
    requires jobs { length jobs.now ≡ 8 }
    ensures some { 1 ≤ result.streams }
    ensures few { result.streams ≤ 4 }
    ensures labels { (k : ℕ) → k < 8 → 0 < slice_index result.sure k
        → IsLabelled (λ p. unwrap_or (label_of modulation p) 0) result k (slice_index_or jobs.now k no_job) }
{
    let streams = jobs[0].system().streams();
    if !have_streams(jobs, streams) {
        return unsure(streams);
    }
    let (i, q) = levels_by(modulation);
    let eight = gathered_by(i, q, streams, jobs);
    label_lanes(modulation, streams, &eight)
}
