//! The labels of points in lanes.
ghost use Rattle.std.specs.Prelude.{◌≡◌, ◌-◌, ◌/◌, ◌%◌, ◌<◌, ℕ, Some, bit_xor, slice_index};
ghost use Rattle.std.specs.Int.{cast_signed, w32};
ghost use Rattle.ht_rounding.specs.declared.levels.Levels.TheVariants.{One, Two, Four, Eight};
ghost use Rattle.ht_map.specs.Gray.{bits_at, joined};
ghost use Rattle.ht_rounding.specs.Words.{HasLanes};
ghost use Rattle.ht_rounding.specs.Proposals.{IsLevel, size_of};
ghost use Rattle.ht_rounding.specs.Labels.{IsNamed, axis_of};

use crate::levels::Levels;
use crate::rows::Reached;
use crate::words::{plus, raised, times};
use std::simd::prelude::*;

// How many levels these are.
#[inline(always)]
fn count(levels: Levels) -> u32
    ensures { result ≡ size_of levels }
{
    match levels {
        Levels::One => 1,
        Levels::Two => 2,
        Levels::Four => 4,
        Levels::Eight => 8,
    }
}

// The halves lane by lane, rounded down.
#[inline(always)]
fn halves(a: u32x8) -> u32x8
    ensures { HasLanes result (λ k. slice_index a k / 2) }
{
    a >> u32x8::splat(1)
}

// The bits in which lanes differ.
#[inline(always)]
fn differing(a: u32x8, b: u32x8) -> u32x8
    ensures { HasLanes result (λ k. bit_xor (slice_index a k) (slice_index b k)) }
{
    a ^ b
}

// The bits that name the levels of lanes, as numbers: those of level j, counted from the lowest, are the Gray code of j.
#[inline(always)]
fn bits(levels: Levels, level: u32x8) -> u32x8
    ensures { (k : ℕ) → k < 8 → IsNamed levels (slice_index level k) (slice_index result k) }
{
    let place = halves(raised(count(levels) - 1, level));
    differing(place, halves(place))
}

// The labels of the points of a stream: the bits of I, and behind them those of Q.
#[inline(always)]
pub(crate) fn labels(i: Levels, q: Levels, stream: &Reached) -> u32x8
    ensures { (k : ℕ) → k < 8 → IsLevel (size_of i) (cast_signed w32 (slice_index stream.now.i k))
        → IsLevel (size_of q) (cast_signed w32 (slice_index stream.now.q k))
        → joined (size_of q) (bits_at (axis_of i) (cast_signed w32 (slice_index stream.now.i k)))
        (bits_at (axis_of q) (cast_signed w32 (slice_index stream.now.q k))) ≡ Some (slice_index result k % 256) }
{
    plus(times(bits(i, stream.i), count(q)), bits(q, stream.q))
}
