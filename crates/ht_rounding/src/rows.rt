//! One row of eight systems.
ghost use Rattle.std.specs.Prelude.{◌≡◌, ◌+◌, ◌*◌, ◌^◌, ◌<◌, ◌≤◌, ℕ, slice_index, unsigned_abs, ◌*ℤ◌};
ghost use Rattle.std.specs.Int.{cast_signed, w32};
ghost use Rattle.ht_rounding.specs.Words.{Holds};
ghost use Rattle.ht_pam.specs.declared.point.Point.{Point};
ghost use Rattle.ht_metric.specs.Distance.{IsInRange, minus as complex_minus, times as entry_times};
ghost use Rattle.ht_metric.specs.declared.complex.Complex.{Complex};
ghost use Rattle.ht_metric.specs.declared.tap.Tap.{Tap};
ghost use Rattle.ht_rounding.specs.Proposals.{AreSmall};
ghost use Rattle.ht_rounding.specs.RowSteps.{AreFitting, CertifiesRow, HoldBoth, IsEntry, point_of};

use crate::levels::{Levels, cut, nearest_level};
use crate::words::{lesser, minus, over, plus, product, times};
use std::simd::prelude::*;

/// A complex number for each lane, modulo 2^32.
#[derive(Clone, Copy, Debug)]
pub struct Parts {
    /// The real parts.
    pub re: u32x8,
    /// The imaginary parts.
    pub im: u32x8,
}

/// The levels of a row's stream, and what is known behind the row.
#[derive(Clone, Copy, Debug)]
pub struct Reached {
    /// The levels of I, modulo 2^32.
    pub i: u32x8,
    /// The levels of Q, modulo 2^32.
    pub q: u32x8,
    /// What is left to spare: 0 where the levels aren't sure.
    pub spare: u32x8,
    /// The distance so far.
    pub rho: u32x8,
}

// What a row costs: the sum of the squares of both gaps.
#[inline(always)]
fn cost(i: u32x8, q: u32x8) -> u32x8
    requires i { (k : ℕ) → k < 8 → slice_index i k < 2 ^ 15 }
    requires q { (k : ℕ) → k < 8 → slice_index q k < 2 ^ 15 }
    ensures { (k : ℕ) → k < 8 → slice_index result k ≡ slice_index i k * slice_index i k + slice_index q k * slice_index q k }
{
    plus(product(i, i), product(q, q))
}

// One row of all lanes: the nearest levels, and what is left to spare when the row's cost is taken away, at most four times
// the diagonal, cut, and the lesser room.
#[inline(always)]
pub(crate) fn next_row(
    i: Levels,
    q: Levels,
    spare: u32x8,
    rho: u32x8,
    target: Parts,
    d: u32x8,
) -> Reached
    requires small { AreSmall d }
    requires fitting { AreFitting spare rho }
    ensures fitting { AreFitting result.spare result.rho }
    ensures less { (k : ℕ) → k < 8 → slice_index result.spare k ≤ slice_index spare k }
    ensures certain { (k : ℕ) → k < 8
        → CertifiesRow i q (slice_index target.re k) (slice_index target.im k) (slice_index d k) (slice_index spare k) (slice_index rho k)
        (slice_index result.i k) (slice_index result.q k) (slice_index result.spare k) (slice_index result.rho k) }
{
    let cut = cut(d);
    let at_i = nearest_level(i, target.re, d, cut);
    let at_q = nearest_level(q, target.im, d, cut);
    let cost = cost(at_i.gap, at_q.gap);
    let margin = product(times(cut, 4), lesser(at_i.room, at_q.room));
    Reached {
        i: at_i.level,
        q: at_q.level,
        spare: lesser(over(spare, cost), margin),
        rho: plus(rho, cost),
    }
}

// A part of an entry times a level.
#[inline(always)]
fn multiplied(part: u32x8, level: u32x8) -> u32x8
    ensures below { (k : ℕ) → k < 8 → slice_index result k < 2 ^ 32 }
    ensures product { (k : ℕ) → k < 8 → unsigned_abs (cast_signed w32 (slice_index part k)) ≤ 2 ^ 15 → unsigned_abs (cast_signed w32 (slice_index level k)) ≤ 7
        → Holds (slice_index result k) (cast_signed w32 (slice_index part k) *ℤ cast_signed w32 (slice_index level k)) }
{
    product(part, level)
}

// What is left of targets when an entry times a later stream's point is taken away.
#[inline(always)]
pub(crate) fn without(target: Parts, entry: Parts, behind: Reached) -> Parts
    ensures { (k : ℕ) → k < 8 → (z : Complex) (r : Tap) → HoldBoth (slice_index target.re k) (slice_index target.im k) z
        → IsEntry (slice_index entry.re k) (slice_index entry.im k) r → IsInRange (point_of (slice_index behind.i k) (slice_index behind.q k))
        → HoldBoth (slice_index result.re k) (slice_index result.im k)
        (complex_minus z (entry_times r (point_of (slice_index behind.i k) (slice_index behind.q k)))) }
{
    Parts {
        re: minus(
            target.re,
            minus(
                multiplied(entry.re, behind.i),
                multiplied(entry.im, behind.q),
            ),
        ),
        im: minus(
            target.im,
            plus(
                multiplied(entry.re, behind.q),
                multiplied(entry.im, behind.i),
            ),
        ),
    }
}
