//! Eight jobs of one to four streams.
ghost use Rattle.std.specs.Prelude.{◌≡◌, ◌-◌, ◌*◌, ◌^◌, ◌<◌, ◌≤◌, ℕ, [], ◌∷◌, slice_index};
ghost use Rattle.ht_metric.specs.Jobs.{JobView};
ghost use Rattle.ht_rounding.specs.Proposals.{AreSmall};
ghost use Rattle.ht_rounding.specs.RowSteps.{AreFitting, CertifiesRow};
ghost use Rattle.ht_rounding.specs.InLanes.{IsInLane, IsSmall, Finds, point_at};

use crate::levels::Levels;
use crate::rows::{Parts, Reached, next_row, without};
use std::simd::prelude::*;

/// A row of eight triangular channels. What stands where a row has no entry isn't read.
#[derive(Clone, Copy, Debug)]
pub struct RowLanes {
    /// The diagonal entries.
    pub diagonal: u32x8,
    /// The entries of the next stream.
    pub next: Parts,
    /// The entries of the stream behind it.
    pub second: Parts,
    /// The entries of the third stream behind the row's own.
    pub third: Parts,
}

/// Eight triangular channels, row by row.
#[derive(Clone, Copy, Debug)]
pub struct Channel {
    /// The rows of stream 1.
    pub first: RowLanes,
    /// The rows of stream 2.
    pub second: RowLanes,
    /// The rows of stream 3.
    pub third: RowLanes,
    /// The rows of stream 4.
    pub fourth: RowLanes,
}

/// What was received through eight channels, row by row.
#[derive(Clone, Copy, Debug)]
pub struct SampleLanes {
    /// The samples of row 1.
    pub first: Parts,
    /// The samples of row 2.
    pub second: Parts,
    /// The samples of row 3.
    pub third: Parts,
    /// The samples of row 4.
    pub fourth: Parts,
}

/// The first row of eight systems, behind which nothing was spent.
#[inline(always)]
fn last_row(i: Levels, q: Levels, target: Parts, d: u32x8) -> Reached
    requires { AreSmall d }
    ensures fitting { AreFitting result.spare result.rho }
    ensures certain { (k : ℕ) → k < 8
        → CertifiesRow i q (slice_index target.re k) (slice_index target.im k) (slice_index d k) (2 ^ 32 - 1) 0
        (slice_index result.i k) (slice_index result.q k) (slice_index result.spare k) (slice_index result.rho k) }
{
    next_row(i, q, u32x8::splat(u32::MAX), u32x8::splat(0), target, d)
}

/// Eight jobs of one stream, with diagonals below 2^16: where something is to spare in the end, the lane has the job's first
/// nearest vector and its distance. All levels are allowed (IEEE Std 802.11-2012, clause 20.3.11.9).
#[inline(always)]
pub fn detect_one(i: Levels, q: Levels, channel: &Channel, samples: &SampleLanes) -> Reached
    requires { IsSmall channel.now }
    ensures { (k : ℕ) (job : JobView) → k < 8 → 0 < slice_index result.spare k → IsInLane i q channel.now samples.now k 1 job
        → Finds (point_at result k ∷ []) (slice_index result.rho k) job }
{
    last_row(i, q, samples.first, channel.first.diagonal)
}

/// What was found for eight jobs of two streams. What is to spare in the end and the distance are those of the first row.
#[derive(Clone, Copy, Debug)]
pub struct Two {
    /// Stream 1.
    pub first: Reached,
    /// Stream 2.
    pub second: Reached,
}

/// Eight jobs of two streams, with diagonals below 2^16: as [`detect_one`] for one.
#[inline(always)]
pub fn detect_two(i: Levels, q: Levels, channel: &Channel, samples: &SampleLanes) -> Two
    requires { IsSmall channel.now }
    ensures { (k : ℕ) (job : JobView) → k < 8 → 0 < slice_index result.first.spare k → IsInLane i q channel.now samples.now k 2 job
        → Finds (point_at result.first k ∷ point_at result.second k ∷ []) (slice_index result.first.rho k) job }
{
    let second = last_row(i, q, samples.second, channel.second.diagonal);
    let target = without(samples.first, channel.first.next, second);
    let d = channel.first.diagonal;
    let first = next_row(i, q, second.spare, second.rho, target, d);
    Two { first, second }
}

/// What was found for eight jobs of three streams.
#[derive(Clone, Copy, Debug)]
pub struct Three {
    /// Stream 1.
    pub first: Reached,
    /// Stream 2.
    pub second: Reached,
    /// Stream 3.
    pub third: Reached,
}

/// Eight jobs of three streams, with diagonals below 2^16: as [`detect_one`] for one.
#[inline(always)]
pub fn detect_three(i: Levels, q: Levels, channel: &Channel, samples: &SampleLanes) -> Three
    requires { IsSmall channel.now }
    ensures { (k : ℕ) (job : JobView) → k < 8 → 0 < slice_index result.first.spare k → IsInLane i q channel.now samples.now k 3 job
        → Finds (point_at result.first k ∷ point_at result.second k ∷ point_at result.third k ∷ []) (slice_index result.first.rho k) job }
{
    let third = last_row(i, q, samples.third, channel.third.diagonal);
    let target = without(samples.second, channel.second.next, third);
    let d = channel.second.diagonal;
    let second = next_row(i, q, third.spare, third.rho, target, d);
    let target = without(samples.first, channel.first.next, second);
    let target = without(target, channel.first.second, third);
    let d = channel.first.diagonal;
    let first = next_row(i, q, second.spare, second.rho, target, d);
    Three {
        first,
        second,
        third,
    }
}

/// What was found for eight jobs of four streams.
#[derive(Clone, Copy, Debug)]
pub struct Four {
    /// Stream 1.
    pub first: Reached,
    /// Stream 2.
    pub second: Reached,
    /// Stream 3.
    pub third: Reached,
    /// Stream 4.
    pub fourth: Reached,
}

/// Eight jobs of four streams, with diagonals below 2^16: as [`detect_one`] for one.
#[inline(always)]
pub fn detect_four(i: Levels, q: Levels, channel: &Channel, samples: &SampleLanes) -> Four
    requires { IsSmall channel.now }
    ensures { (k : ℕ) (job : JobView) → k < 8 → 0 < slice_index result.first.spare k → IsInLane i q channel.now samples.now k 4 job
        → Finds (point_at result.first k ∷ point_at result.second k ∷ point_at result.third k ∷ point_at result.fourth k ∷ [])
        (slice_index result.first.rho k) job }
{
    let fourth = last_row(i, q, samples.fourth, channel.fourth.diagonal);
    let target = without(samples.third, channel.third.next, fourth);
    let d = channel.third.diagonal;
    let third = next_row(i, q, fourth.spare, fourth.rho, target, d);
    let target = without(samples.second, channel.second.next, third);
    let target = without(target, channel.second.second, fourth);
    let d = channel.second.diagonal;
    let second = next_row(i, q, third.spare, third.rho, target, d);
    let target = without(samples.first, channel.first.next, second);
    let target = without(target, channel.first.second, third);
    let target = without(target, channel.first.third, fourth);
    let d = channel.first.diagonal;
    let first = next_row(i, q, second.spare, second.rho, target, d);
    Four {
        first,
        second,
        third,
        fourth,
    }
}
