//! Jobs to lanes.
ghost use Rattle.std.specs.Prelude.{◌≡◌, ◌<◌, ◌≤◌, ℕ, length, slice_index_or};
ghost use Rattle.ht_rounding.specs.declared.loading.Part.TheVariants.{Diagonal, SampleRe, SampleIm, EntryRe, EntryIm};
ghost use Rattle.ht_rounding.specs.InLanes.{IsSmall};
ghost use Rattle.ht_rounding.specs.Proposals.{AreSmall};
ghost use Rattle.ht_rounding.specs.Loading.{HaveDiagonals, HaveParts, HaveStreams, IsLoaded, IsPartOf, IsRowOf, IsShort, IsWord, no_job};

use crate::rows::Parts;
use crate::streams::{Channel, RowLanes, SampleLanes};
use crate::words::lesser;
use ht_metric::Job;
use std::simd::prelude::*;

/// A part of a row of a system.
#[derive(Clone, Copy, Debug)]
pub(crate) enum Part {
    /// The diagonal entry.
    Diagonal,
    /// The real part of the sample.
    SampleRe,
    /// The imaginary part of the sample.
    SampleIm,
    /// The real part of an entry: 0 for that of the next stream, and so on.
    EntryRe(u8),
    /// The imaginary part of an entry.
    EntryIm(u8),
}

/// A number with a sign as a word: it stands modulo 2^32, as in each lane.
#[inline(always)]
pub fn word(number: i32) -> u32
    ensures { IsWord result number }
{
    number.cast_unsigned()
}

// A short number with a sign as a word.
#[inline(always)]
fn short(number: i16) -> u32
    ensures { IsShort result number }
{
    i32::from(number).cast_unsigned()
}

// A part of row `row`, counted from 1, of a job of so many streams, as a word; 0 where the job hasn't it.
#[inline(always)]
pub(crate) fn part_of(job: &Job, streams: u8, row: u8, part: Part) -> u32
    requires streams { streams ≡ length job.now.system }
    requires row { 1 ≤ row }
    ensures { IsPartOf part row job.now.system result }
{
    let system = job.system();
    if row > streams {
        return 0;
    }
    match part {
        Part::Diagonal => u32::from(system.diagonal(row)),
        Part::SampleRe => word(system.sample(row).re),
        Part::SampleIm => word(system.sample(row).im),
        Part::EntryRe(m) => {
            if m < streams - row {
                short(system.above(row, row + 1 + m).re)
            } else {
                0
            }
        }
        Part::EntryIm(m) => {
            if m < streams - row {
                short(system.above(row, row + 1 + m).im)
            } else {
                0
            }
        }
    }
}

// A part of row `row` of eight jobs.
#[inline(always)]
fn lanes_of(jobs: &[Job], streams: u8, row: u8, part: Part) -> u32x8
    requires jobs { length jobs.now ≡ 8 }
    requires streams { HaveStreams streams jobs.now }
    requires row { 1 ≤ row }
    ensures { HaveParts part row jobs.now result }
{
    let mut lanes = [0u32; 8];
    for k in 0..8 {
        lanes[k] = part_of(&jobs[k], streams, row, part);
    }
    u32x8::from_array(lanes)
}

// The diagonals of row `row` of eight jobs: the words are short ones.
#[inline(always)]
fn diagonals_of(jobs: &[Job], streams: u8, row: u8) -> u32x8
    requires jobs { length jobs.now ≡ 8 }
    requires streams { HaveStreams streams jobs.now }
    requires row { 1 ≤ row }
    ensures small { AreSmall result }
    ensures diagonal { HaveDiagonals row jobs.now result }
{
    lesser(
        lanes_of(jobs, streams, row, Part::Diagonal),
        u32x8::splat(65535),
    )
}

// The entries of row `row` of eight jobs: at 0 those of the next stream.
#[inline(always)]
fn entries_of(jobs: &[Job], streams: u8, row: u8, at: u8) -> Parts
    requires jobs { length jobs.now ≡ 8 }
    requires streams { HaveStreams streams jobs.now }
    requires row { 1 ≤ row }
    ensures re { HaveParts (EntryRe at) row jobs.now result.re }
    ensures im { HaveParts (EntryIm at) row jobs.now result.im }
{
    Parts {
        re: lanes_of(jobs, streams, row, Part::EntryRe(at)),
        im: lanes_of(jobs, streams, row, Part::EntryIm(at)),
    }
}

// The samples of row `row` of eight jobs.
#[inline(always)]
fn samples_of(jobs: &[Job], streams: u8, row: u8) -> Parts
    requires jobs { length jobs.now ≡ 8 }
    requires streams { HaveStreams streams jobs.now }
    requires row { 1 ≤ row }
    ensures re { HaveParts SampleRe row jobs.now result.re }
    ensures im { HaveParts SampleIm row jobs.now result.im }
{
    Parts {
        re: lanes_of(jobs, streams, row, Part::SampleRe),
        im: lanes_of(jobs, streams, row, Part::SampleIm),
    }
}

// Row `row` of eight jobs, without what was received.
#[inline(always)]
fn row_of(jobs: &[Job], streams: u8, row: u8) -> RowLanes
    requires jobs { length jobs.now ≡ 8 }
    requires streams { HaveStreams streams jobs.now }
    requires row { 1 ≤ row }
    ensures small { AreSmall result.diagonal }
    ensures diagonal { HaveDiagonals row jobs.now result.diagonal }
    ensures next_re { HaveParts (EntryRe 0) row jobs.now result.next.re }
    ensures next_im { HaveParts (EntryIm 0) row jobs.now result.next.im }
    ensures second_re { HaveParts (EntryRe 1) row jobs.now result.second.re }
    ensures second_im { HaveParts (EntryIm 1) row jobs.now result.second.im }
    ensures third_re { HaveParts (EntryRe 2) row jobs.now result.third.re }
    ensures third_im { HaveParts (EntryIm 2) row jobs.now result.third.im }
{
    RowLanes {
        diagonal: diagonals_of(jobs, streams, row),
        next: entries_of(jobs, streams, row, 0),
        second: entries_of(jobs, streams, row, 1),
        third: entries_of(jobs, streams, row, 2),
    }
}

// A row of eight jobs and what was received on it.
#[derive(Clone, Copy)]
struct RowLoad {
    row: RowLanes,
    samples: Parts,
}

// Row `row` of eight jobs.
#[inline(always)]
fn load_row(jobs: &[Job], streams: u8, row: u8) -> RowLoad
    requires jobs { length jobs.now ≡ 8 }
    requires streams { HaveStreams streams jobs.now }
    requires row { 1 ≤ row }
    ensures small { AreSmall result.row.diagonal }
    ensures row { (k : ℕ) → k < 8 → IsRowOf result.row result.samples k row (slice_index_or jobs.now k no_job).system }
{
    RowLoad {
        row: row_of(jobs, streams, row),
        samples: samples_of(jobs, streams, row),
    }
}

/// Eight jobs in lanes.
#[derive(Clone, Copy)]
pub(crate) struct Loaded {
    pub channel: Channel,
    pub samples: SampleLanes,
}

/// Eight jobs of so many streams in lanes. Rows that they haven't are 0.
#[inline(always)]
pub(crate) fn load(jobs: &[Job], streams: u8) -> Loaded
    requires jobs { length jobs.now ≡ 8 }
    requires streams { HaveStreams streams jobs.now }
    ensures small { IsSmall result.channel }
    ensures rows { (k : ℕ) → k < 8 → IsLoaded result.channel result.samples k (slice_index_or jobs.now k no_job).system }
{
    let first = load_row(jobs, streams, 1);
    let second = load_row(jobs, streams, 2);
    let third = load_row(jobs, streams, 3);
    let fourth = load_row(jobs, streams, 4);
    Loaded {
        channel: Channel {
            first: first.row,
            second: second.row,
            third: third.row,
            fourth: fourth.row,
        },
        samples: SampleLanes {
            first: first.samples,
            second: second.samples,
            third: third.samples,
            fourth: fourth.samples,
        },
    }
}
