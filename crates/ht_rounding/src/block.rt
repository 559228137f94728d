//! Blocks of eight jobs.
ghost use Rattle.std.specs.Prelude.{◌≡◌, ◌+◌, ◌*◌, ◌^◌, ◌<◌, ◌≤◌, ℕ, true, length, replicate, slice_index, slice_index_or, unsigned_abs};
ghost use Rattle.std.specs.Int.{cast_signed, w32};
ghost use Rattle.ht_metric.specs.Jobs.{IsJob, near};
ghost use Rattle.ht_metric.specs.Distance.{IsInRange};
ghost use Rattle.ht_rounding.specs.Proposals.{full};
ghost use Rattle.ht_rounding.specs.InLanes.{AreFew, Finds, axes_of, point_at, points_at};
ghost use Rattle.ht_rounding.specs.Loading.{Answers, AreBelow, AreNear, HaveStreams, no_found, no_job};

use crate::levels::Levels;
use crate::loading::load;
use crate::rows::Reached;
use crate::streams::{Four, detect_four, detect_one, detect_three, detect_two};
use ht_metric::{Found, Job, Vector};
use ht_pam::{Grid, Ladder, Point, Steps};
use ht_sphere::find;
use std::simd::prelude::*;
use std::sync::ledger::Ledger;

// The ladder that allows all these levels.
pub(crate) fn ladder_of(levels: Levels) -> Ladder
    ensures { result ≡ full levels }
{
    match levels {
        Levels::One => Ladder::of(1, 1),
        Levels::Two => Ladder::of(2, 3),
        Levels::Four => Ladder::of(4, 15),
        Levels::Eight => Ladder::of(8, 255),
    }
}

// The grid of so many streams, each with all these levels.
fn full_grid(i: Levels, q: Levels, streams: u8) -> Grid
    requires some { 1 ≤ streams }
    requires few { streams ≤ 4 }
    ensures { result ≡ replicate streams (axes_of i q) }
{
    let i = ladder_of(i);
    let q = ladder_of(q);
    let one = Grid::one(i, q);
    if streams == 1 {
        return one;
    }
    if streams == 2 {
        return one.and(i, q);
    }
    if streams == 3 {
        return one.and(i, q).and(i, q);
    }
    one.and(i, q).and(i, q).and(i, q)
}

// Whether each of eight jobs has so many streams.
pub(crate) fn have_streams(jobs: &[Job], streams: u8) -> bool
    requires { length jobs.now ≡ 8 }
    ensures { result ≡ true → HaveStreams streams jobs.now }
{
    for k in 0..8 {
        if jobs[k].system().streams() != streams {
            return false;
        }
    }
    true
}

// What eight lanes propose for jobs of one stream. What is written for the streams that aren't there is that of stream 1.
#[inline(always)]
fn proposed_one(i: Levels, q: Levels, jobs: &[Job]) -> Four
    requires jobs { length jobs.now ≡ 8 }
    requires streams { HaveStreams 1 jobs.now }
    ensures { Answers i q 1 jobs.now result }
{
    let loaded = load(jobs, 1);
    let first = detect_one(i, q, &loaded.channel, &loaded.samples);
    Four {
        first,
        second: first,
        third: first,
        fourth: first,
    }
}

// The same for jobs of two streams.
#[inline(always)]
fn proposed_two(i: Levels, q: Levels, jobs: &[Job]) -> Four
    requires jobs { length jobs.now ≡ 8 }
    requires streams { HaveStreams 2 jobs.now }
    ensures { Answers i q 2 jobs.now result }
{
    let loaded = load(jobs, 2);
    let found = detect_two(i, q, &loaded.channel, &loaded.samples);
    Four {
        first: found.first,
        second: found.second,
        third: found.first,
        fourth: found.first,
    }
}

// The same for jobs of three streams.
#[inline(always)]
fn proposed_three(i: Levels, q: Levels, jobs: &[Job]) -> Four
    requires jobs { length jobs.now ≡ 8 }
    requires streams { HaveStreams 3 jobs.now }
    ensures { Answers i q 3 jobs.now result }
{
    let loaded = load(jobs, 3);
    let found = detect_three(i, q, &loaded.channel, &loaded.samples);
    Four {
        first: found.first,
        second: found.second,
        third: found.third,
        fourth: found.first,
    }
}

// The same for jobs of four streams.
#[inline(always)]
fn proposed_four(i: Levels, q: Levels, jobs: &[Job]) -> Four
    requires jobs { length jobs.now ≡ 8 }
    requires streams { HaveStreams 4 jobs.now }
    ensures { Answers i q 4 jobs.now result }
{
    let loaded = load(jobs, 4);
    detect_four(i, q, &loaded.channel, &loaded.samples)
}

// What eight lanes propose for jobs of so many streams.
fn proposed(i: Levels, q: Levels, jobs: &[Job], streams: u8) -> Four
    requires jobs { length jobs.now ≡ 8 }
    requires streams { HaveStreams streams jobs.now }
    requires some { 1 ≤ streams }
    requires few { streams ≤ 4 }
    ensures { Answers i q streams jobs.now result }
{
    if streams == 1 {
        return proposed_one(i, q, jobs);
    }
    if streams == 2 {
        return proposed_two(i, q, jobs);
    }
    if streams == 3 {
        return proposed_three(i, q, jobs);
    }
    proposed_four(i, q, jobs)
}

// The level of a lane that has one.
fn level_at(lanes: u32x8, k: usize) -> i8
    requires lane { k < 8 }
    requires few { unsigned_abs (cast_signed w32 (slice_index lanes k)) ≤ 7 }
    ensures { result ≡ cast_signed w32 (slice_index lanes k) }
{
    (lanes.to_array()[k].cast_signed()) as i8
}

// The point of a lane that has one.
fn point(stream: &Reached, k: usize) -> Point
    requires lane { k < 8 }
    requires few { IsInRange (point_at stream.now k) }
    ensures { result ≡ point_at stream.now k }
{
    Point {
        i: level_at(stream.i, k),
        q: level_at(stream.q, k),
    }
}

// What a lane found for a job of so many streams.
fn found_at(found: &Four, streams: u8, k: usize) -> Found
    requires lane { k < 8 }
    requires some { 1 ≤ streams }
    requires most { streams ≤ 4 }
    requires few { AreFew (points_at streams found.now k) }
    ensures vector { result.vector ≡ points_at streams found.now k }
    ensures distance { result.distance ≡ slice_index found.now.first.rho k }
    ensures below { result.distance < 2 ^ 66 }
{
    let mut vector = Vector::new();
    vector.push(point(&found.first, k));
    if streams > 1 {
        vector.push(point(&found.second, k));
    }
    if streams > 2 {
        vector.push(point(&found.third, k));
    }
    if streams > 3 {
        vector.push(point(&found.fourth, k));
    }
    Found {
        vector,
        distance: u128::from(found.first.rho.to_array()[k]),
    }
}

// The levels of a grid that has all of them on each stream: it only chooses what is tried.
fn levels_of(grid: &Grid) -> (Levels, Levels)
    requires some { 1 ≤ length grid.now }
{
    let i = grid.i_ladder(1);
    if i.has(7) {
        return (Levels::Eight, Levels::Eight);
    }
    if i.has(3) {
        return (Levels::Four, Levels::Four);
    }
    let q = grid.q_ladder(1);
    (
        Levels::Two,
        if q.has(1) { Levels::Two } else { Levels::One },
    )
}

// What was found for a job: by its lane, where that is certain, else by the search.
fn lane_or_search<L: Ledger>(
    job: &Job,
    grid: &Grid,
    streams: u8,
    found: &Four,
    k: usize,
    steps: &mut Steps<L>,
) -> Found
    requires lane { k < 8 }
    requires some { 1 ≤ streams }
    requires most { streams ≤ 4 }
    requires certain { IsJob job.now → job.now.grid ≡ grid.now → 0 < slice_index found.now.first.spare k
        → Finds (points_at streams found.now k) (slice_index found.now.first.rho k) job.now }
    ensures found { result ≡ near job.now }
    ensures below { result.distance < 2 ^ 66 }
{
    let is_sure = found.first.spare.to_array()[k] > 0;
    if is_sure && job.grid().same(grid) {
        return found_at(found, streams, k);
    }
    find(job, steps)
}

// The same for eight jobs, each by the search.
fn find_each<L: Ledger>(jobs: &[Job], founds: &mut [Found], steps: &mut Steps<L>)
    requires jobs { length jobs.now ≡ 8 }
    requires founds { length founds.old ≡ 8 }
    ensures length { length founds.new ≡ 8 }
    ensures near { AreNear founds.new jobs.now }
    ensures below { AreBelow founds.new }
{
    for k in 0..8 {
        founds[k] = find(&jobs[k], steps);
    }
}

/// Finds the first nearest vectors of eight jobs, no more and no fewer, each with its squared distance, which is below 2^66.
/// `founds` has eight places, too.
///
/// Where the jobs have the same number of streams, and all points of the first job's constellations are allowed on each stream,
/// those that have the same grid are rounded in lanes. Jobs that a lane isn't sure of, and all others, go to the search.
pub fn find_eight<L: Ledger>(jobs: &[Job], founds: &mut [Found], steps: &mut Steps<L>)
    requires jobs { length jobs.now ≡ 8 }
    requires founds { length founds.old ≡ 8 }
    ensures length { length founds.new ≡ 8 }
    ensures near { AreNear founds.new jobs.now }
    ensures below { AreBelow founds.new }
{
    let streams = jobs[0].system().streams();
    if !have_streams(jobs, streams) {
        return find_each(jobs, founds, steps);
    }
    let (i, q) = levels_of(jobs[0].grid());
    let grid = full_grid(i, q, streams);
    let found = proposed(i, q, jobs, streams);
    for k in 0..8 {
        founds[k] = lane_or_search(&jobs[k], &grid, streams, &found, k, steps);
    }
}
