//! The coded bits A and B of a word's steps as two planes: bit n of each is that of step n.
ghost use Rattle.std.specs.Prelude.{◌≡◌, ◌<◌, ◌≤◌, ◌^◌, ℕ, Some};
ghost use Rattle.ht_conv.specs.Code.{taps_a, taps_b};
ghost use Rattle.ht_viterbi.specs.Packed.{flag, word_steps};
ghost use Rattle.ht_clean.specs.Planes.{HasPlanes, back, coded_in, lagged_bit, plane_bits, traced, word_wrong};

use crate::layout::{Layout, Stage, layout_of, steps_of_word};
use ht_rate::Pattern;

/// Two planes of bits, one for each step.
#[derive(Clone, Copy, Drop)]
pub(crate) struct Planes {
    pub(crate) a: u64,
    pub(crate) b: u64,
}

impl Planes {
    /// How many bits they have at a step.
    #[inline(always)]
    pub(crate) fn bits_at(self, step: u32) -> u32
        requires { step < 64 }
        ensures value { result ≡ plane_bits self step }
        ensures bound { result ≤ 2 }
    {
        u32::from(self.a >> step & 1 == 1) + u32::from(self.b >> step & 1 == 1)
    }
}

// The lowest bits of a word.
#[inline(always)]
pub(crate) fn low_bits(word: u64, count: u32) -> u64
    requires { count < 64 }
    ensures within { (place : ℕ) → place < count → flag result place ≡ flag word place }
    ensures bound { result < 2 ^ count }
{
    word & ((1 << count) - 1)
}

// One stage of bringing bits together.
#[inline(always)]
fn drawn(bits: u64, shift: u32, stage: Stage) -> u64
    requires { shift < 64 }
    ensures { (place origin : ℕ) → back shift stage place ≡ Some origin → flag result place ≡ flag bits origin }
{
    bits & stage.keep | bits >> shift & stage.draw
}

// All five of them.
#[inline(always)]
fn gathered(bits: u64, layout: &Layout) -> u64
    ensures { (place origin : ℕ) → traced layout.now place ≡ Some origin → flag result place ≡ flag bits origin }
{
    let by_one = drawn(bits, 1, layout.by_one);
    let by_two = drawn(by_one, 2, layout.by_two);
    let by_four = drawn(by_two, 4, layout.by_four);
    let by_eight = drawn(by_four, 8, layout.by_eight);
    drawn(by_eight, 16, layout.by_sixteen)
}

/// The planes of a received word.
#[inline(always)]
pub(crate) fn planes_of(pattern: Pattern, word: u64) -> Planes
    ensures { HasPlanes pattern word result }
{
    let layout = layout_of(pattern);
    Planes {
        a: gathered(drawn(word, 1, layout.a), layout),
        b: gathered(drawn(word, 1, layout.b), layout),
    }
}

// The input bits some steps before those of a word.
#[inline(always)]
fn lagged(current: u64, previous: u64, width: u32, delay: u32) -> u64
    requires width { width < 64 }
    requires delay { delay < width }
    requires whole { previous < 2 ^ width }
    ensures { (step : ℕ) → step < width → flag result step ≡ lagged_bit current previous width step delay }
{
    current << delay | previous >> (width - delay)
}

// The coded bits of a word's input.
#[inline(always)]
fn coded(current: u64, previous: u64, width: u32) -> Planes
    requires least { 7 ≤ width }
    requires most { width < 64 }
    requires whole { previous < 2 ^ width }
    ensures a { (step : ℕ) → step < width → flag result.a step ≡ coded_in taps_a current previous width step }
    ensures b { (step : ℕ) → step < width → flag result.b step ≡ coded_in taps_b current previous width step }
{
    let by_one = lagged(current, previous, width, 1);
    let by_two = lagged(current, previous, width, 2);
    let by_three = lagged(current, previous, width, 3);
    let by_five = lagged(current, previous, width, 5);
    let by_six = lagged(current, previous, width, 6);
    Planes {
        a: current ^ (by_two ^ (by_three ^ (by_five ^ by_six))),
        b: current ^ (by_one ^ (by_two ^ (by_three ^ by_six))),
    }
}

/// The wrong places of a word's first steps, where the input of the word and of the one before it is this one.
#[inline(always)]
pub(crate) fn wrong_places(
    pattern: Pattern,
    word: u64,
    current: u64,
    previous: u64,
    count: u32,
) -> Planes
    requires count { count ≤ word_steps pattern }
    requires whole { previous < 2 ^ word_steps pattern }
    ensures { (step : ℕ) → step < count → plane_bits result step ≡ word_wrong pattern word current previous step }
{
    let received = planes_of(pattern, word);
    let sent = coded(current, previous, steps_of_word(pattern));
    let kept = layout_of(pattern).kept;
    Planes {
        a: low_bits((received.a ^ sent.a) & kept.a, count),
        b: low_bits((received.b ^ sent.b) & kept.b, count),
    }
}
