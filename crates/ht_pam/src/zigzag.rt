//! The levels of a coordinate, nearest first.
ghost use Rattle.std.specs.Prelude.{◌≡◌, ◌⊎◌, ◌+◌, ◌-◌, ◌*◌, ◌^◌, ◌<◌, ◌≤◌, ◌==◌, true, false, [], ◌∷◌, length, slice_index_or, drop, IfSome};
ghost use Rattle.std.specs.Prelude.{◌+ℤ◌, ◌-ℤ◌, ◌*ℤ◌, ◌<ℤ◌, ◌≤ℤ◌, pos, unsigned_abs};
ghost use Rattle.std.specs.Option.{MatchOption};
ghost use Rattle.std.specs.Int.{bit_at};
ghost use Rattle.ht_pam.specs.Ladders.{level, levels};
ghost use Rattle.ht_pam.specs.Zigzags.{gap as gap_of, nearest_first};
ghost use Rattle.ht_pam.specs.Ends.{levels_in, both, top, bottom, IsNearestPlace, IsZigzag};

use crate::ladder::{Ladder, level_at};
use crate::steps::Steps;
use std::marker::Model;
use std::sync::ledger::Ledger;

/// The allowed levels of a ladder that are still to be given, the nearest to a target first.
///
/// A level is the nearer the smaller the size of `target - d * level` is; of two that are equally near the lower one
/// comes first.
#[derive(Drop)]
pub struct Zigzag {
    target: i64,
    d: u32,
    size: u32,
    below: u32,
    above: u32,
}

impl Model for Zigzag {
    ghost use Rattle.std.specs.Prelude.{ℤ, List};

    ghost Value = { List ℤ };

    ghost use Rattle.std.specs.Prelude.{unsigned_abs, ◌≤◌, ◌^◌};
    ghost use Rattle.ht_pam.specs.Zigzags.{gap, nearest_first};
    ghost use Rattle.ht_pam.specs.Ends.{both, IsZigzag};

    ghost view = { λ z. nearest_first (gap z.target z.d) (both z.size z.below z.above) };

    ghost invariant = { λ z. IsZigzag z.target z.d z.size z.below z.above × (unsigned_abs z.target ≤ 2 ^ 33) × (z.d ≤ 65535) };
}

impl Zigzag {
    /// All allowed levels of the ladder.
    ///
    /// The target is within plus or minus 2^33, and `d`, a diagonal of a triangular channel, at most 65535.
    pub fn new(ladder: Ladder, target: i64, d: u32) -> Zigzag
        requires target { unsigned_abs target ≤ 2 ^ 33 }
        requires diagonal { d ≤ 65535 }
        ensures { result ≡ nearest_first (gap_of target d) (levels ladder) }
    {
        let (size, mask) = ladder.parts();
        let below = start(size, mask, target, d);
        Zigzag {
            target,
            d,
            size,
            below,
            above: mask - below,
        }
    }

    /// The nearest level that was not given yet, or `None` where all were. Each call is one step.
    pub fn next<L: Ledger>(&mut self, steps: &mut Steps<L>) -> Option<i8>
        ensures next { MatchOption result ((self.old ≡ []) × (self.new ≡ [])) (λ x. self.old ≡ x ∷ self.new) }
        ensures level { IfSome result (λ x. unsigned_abs x ≤ 7) }
        ensures steps { steps.new ≡ steps.old + 1 }
    {
        steps.tick();
        self.take()
    }

    // The same without a counter.
    fn take(&mut self) -> Option<i8>
        ensures next { MatchOption result ((self.old ≡ []) × (self.new ≡ [])) (λ x. self.old ≡ x ∷ self.new) }
        ensures level { IfSome result (λ x. unsigned_abs x ≤ 7) }
    {
        if self.below == 0 && self.above == 0 {
            return None;
        }
        if is_lower(self.target, self.d, self.size, self.below, self.above) {
            let at = highest(self.size, self.below);
            self.below = without(self.below, at);
            Some(level_at(self.size, at))
        } else {
            let at = lowest(self.size, self.above);
            self.above = without(self.above, at);
            Some(level_at(self.size, at))
        }
    }

    /// The level that `next` will give, where one is left. It takes no step.
    pub fn first(&self) -> i8
        requires { 0 < length self.now }
        ensures value { result ≡ slice_index_or self.now 0 (pos 0) }
        ensures level { unsigned_abs result ≤ 7 }
    {
        if is_lower(self.target, self.d, self.size, self.below, self.above) {
            level_at(self.size, highest(self.size, self.below))
        } else {
            level_at(self.size, lowest(self.size, self.above))
        }
    }

    /// The level that `next` will give after the first one, where two are left. It takes no step.
    #[inline(always)]
    pub fn second(&self) -> Option<i8>
        requires { 0 < length self.now }
        ensures value { MatchOption result (length self.now ≡ 1) (λ x. self.now ≡ slice_index_or self.now 0 (pos 0) ∷ x ∷ drop 2 self.now) }
        ensures level { IfSome result (λ x. unsigned_abs x ≤ 7) }
    {
        let mut behind = Zigzag {
            target: self.target,
            d: self.d,
            size: self.size,
            below: self.below,
            above: self.above,
        };
        behind.take();
        behind.take()
    }
}

impl Ladder {
    /// The allowed level that a walk gives first: the nearest to the target, and the lower one of two that are equally
    /// near. It takes no step.
    ///
    /// The target is within plus or minus 2^33, and `d`, a diagonal of a triangular channel, at most 65535.
    #[inline(always)]
    pub fn nearest(self, target: i64, d: u32) -> i8
        requires target { unsigned_abs target ≤ 2 ^ 33 }
        requires diagonal { d ≤ 65535 }
        ensures value { result ≡ slice_index_or (nearest_first (gap_of target d) (levels self)) 0 (pos 0) }
        ensures level { unsigned_abs result ≤ 7 }
    {
        let (size, mask) = self.parts();
        if d > 0 {
            let at = nearest(size, target, d);
            if allows(mask, at) {
                return level_at(size, at);
            }
        }
        Zigzag::new(self, target, d).first()
    }
}

// Whether a mask allows a place.
fn allows(mask: u32, at: u32) -> bool
    requires { at < 8 }
    ensures { result ≡ (bit_at mask at == 1) }
{
    (mask >> at) & 1 == 1
}

// The levels from which the walk goes down, by a mask: those up to the nearest one, or none where all are as near.
fn start(size: u32, mask: u32, target: i64, d: u32) -> u32
    requires size { (size ≡ 1) ⊎ (size ≡ 2) ⊎ (size ≡ 4) ⊎ (size ≡ 8) }
    requires some { 0 < mask }
    requires within { mask < 2 ^ size }
    requires target { unsigned_abs target ≤ 2 ^ 33 }
    requires diagonal { d ≤ 65535 }
    ensures within { result ≤ mask }
    ensures zigzag { IsZigzag target d size result (mask - result) }
    ensures all { levels_in size mask ≡ both size result (mask - result) }
{
    if d == 0 {
        return 0;
    }
    mask & up_to(nearest_by_jumps(size, target, d))
}

// Whether the nearest level is the highest one below.
fn is_lower(target: i64, d: u32, size: u32, below: u32, above: u32) -> bool
    requires zigzag { IsZigzag target d size below above }
    requires target { unsigned_abs target ≤ 2 ^ 33 }
    requires diagonal { d ≤ 65535 }
    requires some { 0 < below + above }
    ensures lower { result ≡ true → 0 < below }
    ensures near { result ≡ true → 0 < above → gap_of target d (level size (top below)) ≤ gap_of target d (level size (bottom above)) }
    ensures higher { result ≡ false → 0 < above }
    ensures far { result ≡ false → 0 < below → gap_of target d (level size (bottom above)) < gap_of target d (level size (top below)) }
{
    if below == 0 {
        return false;
    }
    if above == 0 {
        return true;
    }
    let low = level_at(size, highest(size, below));
    let high = level_at(size, lowest(size, above));
    is_nearer(target, d, low, high)
}

// Whether the lower one of two levels is at least as near.
fn is_nearer(target: i64, d: u32, low: i8, high: i8) -> bool
    requires target { unsigned_abs target ≤ 2 ^ 33 }
    requires some { 0 < d }
    requires diagonal { d ≤ 65535 }
    requires low { unsigned_abs low ≤ 7 }
    requires high { unsigned_abs high ≤ 7 }
    requires order { low <ℤ high }
    ensures near { result ≡ true → gap_of target d low ≤ gap_of target d high }
    ensures far { result ≡ false → gap_of target d high < gap_of target d low }
{
    target + target <= between(d, low, high)
}

// Twice the middle of two levels, times the diagonal.
fn between(d: u32, low: i8, high: i8) -> i64
    requires diagonal { d ≤ 65535 }
    requires low { unsigned_abs low ≤ 7 }
    requires high { unsigned_abs high ≤ 7 }
    ensures { result ≡ pos d *ℤ (low +ℤ high) }
{
    i64::from(d) * (i64::from(low) + i64::from(high))
}

// The place of the nearest of all levels, the lower one at a tie, by their midpoints.
fn nearest(size: u32, target: i64, d: u32) -> u32
    requires size { (size ≡ 1) ⊎ (size ≡ 2) ⊎ (size ≡ 4) ⊎ (size ≡ 8) }
    requires diagonal { d ≤ 65535 }
    ensures { IsNearestPlace size target d result }
{
    // `at` counts halves of this width, and the comparison is added to it as a number: a jump on it would be guessed wrong
    // in half of all random samples.
    let mut at = 0u32;
    let mut width = size;
    while width > 1 {
        width /= 2;
        at = halved(size, at, width, target, d);
    }
    at
}

// The lower or the upper half of part `at` of the levels, whichever has the nearest one. Halves have `width` levels, and
// are counted from 0.
#[inline(always)]
fn halved(size: u32, at: u32, width: u32, target: i64, d: u32) -> u32
    requires size { size ≤ 8 }
    requires width { (width ≡ 1) ⊎ (width ≡ 2) ⊎ (width ≡ 4) }
    requires within { 2 * at * width + 2 * width ≤ size }
    requires diagonal { d ≤ 65535 }
    ensures either { (result ≡ 2 * at) ⊎ (result ≡ 2 * at + 1) }
    ensures below { result ≡ 2 * at + 1 → (pos d *ℤ (level size (2 * at * width + width) -ℤ pos 1)) <ℤ target }
    ensures above { result ≡ 2 * at → target ≤ℤ (pos d *ℤ (level size (2 * at * width + width) -ℤ pos 1)) }
{
    2 * at + u32::from(middle(size, 2 * at * width + width, d) < target)
}

// The same with a jump on each comparison. Where a walk begins this is the faster form: what comes next needs no sum of
// comparisons, and goes on at once where the guess was right.
fn nearest_by_jumps(size: u32, target: i64, d: u32) -> u32
    requires size { (size ≡ 1) ⊎ (size ≡ 2) ⊎ (size ≡ 4) ⊎ (size ≡ 8) }
    requires diagonal { d ≤ 65535 }
    ensures { IsNearestPlace size target d result }
{
    let mut at = 0u32;
    let mut width = size;
    while width > 1 {
        width /= 2;
        if middle(size, at + width, d) < target {
            at += width;
        }
    }
    at
}

// The middle of a level and the one below it, times the diagonal.
fn middle(size: u32, at: u32, d: u32) -> i64
    requires size { size ≤ 8 }
    requires within { at < size }
    requires diagonal { d ≤ 65535 }
    ensures { result ≡ pos d *ℤ (level size at -ℤ pos 1) }
{
    i64::from(d) * middle_level(size, at)
}

// The middle of a level and the one below it.
fn middle_level(size: u32, at: u32) -> i64
    requires size { size ≤ 8 }
    requires within { at < size }
    ensures value { result ≡ level size at -ℤ pos 1 }
    ensures bound { unsigned_abs result ≤ 8 }
{
    2 * i64::from(at) - i64::from(size)
}

// The mask of the places up to this one.
fn up_to(at: u32) -> u32
    requires { at < 8 }
    ensures { result ≡ 2 * 2 ^ at - 1 }
{
    (2 << at) - 1
}

// The highest place of a mask.
fn highest(size: u32, mask: u32) -> u32
    requires size { (size ≡ 1) ⊎ (size ≡ 2) ⊎ (size ≡ 4) ⊎ (size ≡ 8) }
    requires some { 0 < mask }
    requires within { mask < 2 ^ size }
    ensures place { result ≡ top mask }
    ensures within { result < size }
    ensures there { 2 ^ result ≤ mask }
{
    31 - mask.leading_zeros()
}

// The lowest place of a mask.
fn lowest(size: u32, mask: u32) -> u32
    requires size { (size ≡ 1) ⊎ (size ≡ 2) ⊎ (size ≡ 4) ⊎ (size ≡ 8) }
    requires some { 0 < mask }
    requires within { mask < 2 ^ size }
    ensures place { result ≡ bottom mask }
    ensures within { result < size }
    ensures there { 2 ^ result ≤ mask }
{
    mask.trailing_zeros()
}

// The mask with one place less.
fn without(mask: u32, at: u32) -> u32
    requires few { at < 8 }
    requires there { 2 ^ at ≤ mask }
    ensures { result ≡ mask - 2 ^ at }
{
    mask - (1 << at)
}
