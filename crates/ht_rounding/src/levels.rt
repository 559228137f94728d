//! The nearest level of a coordinate, by folding.
ghost use Rattle.std.specs.Prelude.{◌≡◌, ◌+◌, ◌-◌, ◌*◌, ◌%◌, ◌^◌, ◌<◌, ◌≤◌, ℕ, slice_index};
ghost use Rattle.ht_rounding.specs.Words.{minus, size, turned};
ghost use Rattle.ht_rounding.specs.declared.levels.Levels.TheVariants.{One, Two, Four, Eight};
ghost use Rattle.ht_rounding.specs.Proposals.{AreCut, AreSmall, IsCoordinate, Proposes};

use crate::words::{lesser, minus, over, raised, size, times, turned};
use std::simd::prelude::*;

/// How many levels a coordinate has, all of which are allowed.
#[derive(Clone, Copy, Debug, PartialEq, Eq)]
pub enum Levels {
    /// The level 0: Q of BPSK.
    One,
    /// -1 and 1: I of BPSK, and both coordinates of QPSK.
    Two,
    /// -3, -1, 1 and 3: 16-QAM.
    Four,
    /// The odd numbers from -7 to 7: 64-QAM.
    Eight,
}

// Gaps and cut diagonals are below this: two squares of gaps fit 32 bits, and so does four times a cut diagonal and a room.
const WIDEST: u32 = 1 << 15;

// A level for each lane, modulo 2^32, and the size of what it leaves of the lane's target.
#[derive(Clone, Copy)]
struct Proposal {
    level: u32x8,
    gap: u32x8,
}

// The one level, 0.
#[inline(always)]
fn at_one(target: u32x8, d: u32x8) -> Proposal
    ensures zero { (k : ℕ) → k < 8 → slice_index result.level k ≡ 0 }
    ensures proposed { (k : ℕ) → k < 8 → (bound : ℕ) → bound ≤ 2 ^ 31 + 2 ^ 22
        → Proposes 1 bound (slice_index target k) (slice_index d k) (slice_index result.level k) (slice_index result.gap k) }
{
    let _unused = d;
    Proposal {
        level: u32x8::splat(0),
        gap: size(target),
    }
}

// What is left of the targets when they are folded at 0 and the middle of the positive levels is taken away.
#[inline(always)]
fn folded(target: u32x8, d: u32x8, half: u32) -> u32x8
    ensures { (k : ℕ) → k < 8 → slice_index result k ≡ minus (size (slice_index target k)) ((slice_index d k * half) % 2 ^ 32) }
{
    minus(size(target), times(d, half))
}

// The levels of the targets, from those behind the fold.
#[inline(always)]
fn unfolded(target: u32x8, half: u32, level: u32x8) -> u32x8
    ensures { (k : ℕ) → k < 8 → slice_index result k ≡ turned (slice_index target k) ((half + slice_index level k) % 2 ^ 32) }
{
    turned(target, raised(half, level))
}

// The levels -1 and 1.
#[inline(always)]
fn at_two(target: u32x8, d: u32x8) -> Proposal
    requires { AreSmall d }
    ensures sign { (k : ℕ) → k < 8 → slice_index result.level k ≡ turned (slice_index target k) 1 }
    ensures proposed { (k : ℕ) → k < 8 → (bound : ℕ) → bound ≤ 2 ^ 31 + 2 ^ 22 - 2 ^ 16
        → Proposes 2 bound (slice_index target k) (slice_index d k) (slice_index result.level k) (slice_index result.gap k) }
{
    let inner = at_one(folded(target, d, 1), d);
    Proposal {
        level: unfolded(target, 1, inner.level),
        gap: inner.gap,
    }
}

// The levels -3, -1, 1 and 3.
#[inline(always)]
fn at_four(target: u32x8, d: u32x8) -> Proposal
    requires { AreSmall d }
    ensures { (k : ℕ) → k < 8 → (bound : ℕ) → bound ≤ 2 ^ 31 + 2 ^ 22 - 2 ^ 18
        → Proposes 4 bound (slice_index target k) (slice_index d k) (slice_index result.level k) (slice_index result.gap k) }
{
    let inner = at_two(folded(target, d, 2), d);
    Proposal {
        level: unfolded(target, 2, inner.level),
        gap: inner.gap,
    }
}

// The odd levels from -7 to 7.
#[inline(always)]
fn at_eight(target: u32x8, d: u32x8) -> Proposal
    requires { AreSmall d }
    ensures { (k : ℕ) → k < 8 → (bound : ℕ) → bound ≤ 2 ^ 31 + 2 ^ 21
        → Proposes 8 bound (slice_index target k) (slice_index d k) (slice_index result.level k) (slice_index result.gap k) }
{
    let inner = at_four(folded(target, d, 4), d);
    Proposal {
        level: unfolded(target, 4, inner.level),
        gap: inner.gap,
    }
}

// The diagonals, cut below the widest gap: margins of rows with a greater diagonal are told too small.
#[inline(always)]
pub(crate) fn cut(d: u32x8) -> u32x8
    requires { AreSmall d }
    ensures { AreCut d result }
{
    lesser(d, u32x8::splat(WIDEST - 1))
}

/// A level for each lane, modulo 2^32; what it leaves of the lane's target, cut; and the room, 0 where the level isn't sure.
/// Each other level costs more by at least 4 times the diagonal and the room.
#[derive(Clone, Copy)]
pub(crate) struct Coordinate {
    pub level: u32x8,
    pub gap: u32x8,
    pub room: u32x8,
}

// The one level, 0: there is no other, so that its gap has only to be the true one.
#[inline(always)]
fn single(target: u32x8, d: u32x8, cut: u32x8) -> Coordinate
    requires { AreCut d cut }
    ensures { (k : ℕ) → k < 8
        → IsCoordinate One (slice_index target k) (slice_index d k) (slice_index cut k) (slice_index result.level k) (slice_index result.gap k)
        (slice_index result.room k) }
{
    let Proposal { level, gap } = at_one(target, d);
    Coordinate {
        level,
        gap: lesser(gap, u32x8::splat(WIDEST - 1)),
        room: lesser(over(u32x8::splat(WIDEST), gap), cut),
    }
}

// The levels -1 and 1: nothing lies beyond them, so that the other one costs more by four times the diagonal and the size
// of the target.
#[inline(always)]
fn pair(target: u32x8, d: u32x8, cut: u32x8) -> Coordinate
    requires { AreCut d cut }
    ensures { (k : ℕ) → k < 8
        → IsCoordinate Two (slice_index target k) (slice_index d k) (slice_index cut k) (slice_index result.level k) (slice_index result.gap k)
        (slice_index result.room k) }
{
    let Proposal { level, gap } = at_two(target, d);
    Coordinate {
        level,
        gap: lesser(gap, u32x8::splat(WIDEST - 1)),
        room: lesser(over(u32x8::splat(WIDEST), gap), lesser(size(target), cut)),
    }
}

// Four levels. The room is what the diagonal, cut, has over the gap.
#[inline(always)]
fn four(target: u32x8, d: u32x8, cut: u32x8) -> Coordinate
    requires { AreCut d cut }
    ensures { (k : ℕ) → k < 8
        → IsCoordinate Four (slice_index target k) (slice_index d k) (slice_index cut k) (slice_index result.level k) (slice_index result.gap k)
        (slice_index result.room k) }
{
    let Proposal { level, gap } = at_four(target, d);
    Coordinate {
        level,
        gap: lesser(gap, cut),
        room: over(cut, gap),
    }
}

// Eight levels.
#[inline(always)]
fn eight(target: u32x8, d: u32x8, cut: u32x8) -> Coordinate
    requires { AreCut d cut }
    ensures { (k : ℕ) → k < 8
        → IsCoordinate Eight (slice_index target k) (slice_index d k) (slice_index cut k) (slice_index result.level k) (slice_index result.gap k)
        (slice_index result.room k) }
{
    let Proposal { level, gap } = at_eight(target, d);
    Coordinate {
        level,
        gap: lesser(gap, cut),
        room: over(cut, gap),
    }
}

// The nearest level of each lane's target, among these.
#[inline(always)]
pub(crate) fn nearest_level(levels: Levels, target: u32x8, d: u32x8, cut: u32x8) -> Coordinate
    requires { AreCut d cut }
    ensures { (k : ℕ) → k < 8
        → IsCoordinate levels (slice_index target k) (slice_index d k) (slice_index cut k) (slice_index result.level k) (slice_index result.gap k)
        (slice_index result.room k) }
{
    match levels {
        Levels::One => single(target, d, cut),
        Levels::Two => pair(target, d, cut),
        Levels::Four => four(target, d, cut),
        Levels::Eight => eight(target, d, cut),
    }
}
