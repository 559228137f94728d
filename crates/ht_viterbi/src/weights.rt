//! The decoder of weights: all 64 states at once, with whole costs in lanes of 32 bits. Before these come to the
//! lanes' end all are lowered by the same, on which no choice depends.
ghost use Rattle.std.specs.Prelude.{◌≡◌, ◌+◌, ◌-◌, ◌*◌, ◌^◌, ◌<◌, ◌≤◌, ◌↔◌, ℕ, true, false, IfOk};
ghost use Rattle.std.specs.Prelude.{length, drop, replicate, slice_index};
ghost use Rattle.std.specs.Int.{bit_at};
ghost use Rattle.ht_conv.specs.Puncturing.{sent_count};
ghost use Rattle.ht_viterbi.specs.Inputs.{IsFound, tail, weight_cost};
ghost use Rattle.ht_viterbi.specs.Lanes.{AreLowered, AreWithin, HasLanes, HaveRoom, IsLight, heaviest, weight_steps};
ghost use Rattle.ht_viterbi.specs.Trellis.{way, chosen, lesser, least_from, AreChoices, word_steps};

use crate::backwards::{Backwards, Word};
use crate::codeword::Cheapest;
use crate::cost_lanes::{differences, lesser, negative, pair_costs, ways_by_one, ways_by_zero};
use crate::decoder::TAIL;
use crate::pairs::{StepCosts, step_at};
use crate::plain::Plain;
use ht_rate::Pattern;
use std::alloc::{AllocError, Global};
use std::simd::prelude::*;

// The size of the heaviest weight whose costs the lanes hold.
const HEAVIEST: u32 = 65_535;

// The cost of state 0 at which all costs are lowered.
const LIMIT: u32 = 1 << 30;

// By how much they are lowered.
const FALL: u32 = 1 << 29;

// Whether the lanes hold the costs of these weights.
fn are_light(weights: &[i32]) -> bool
    ensures { result ≡ true → AreWithin heaviest weights.now }
{
    weights
        .iter()
        .all(|weight| weight.unsigned_abs() <= HEAVIEST)
}

// No state costs anything at the end.
#[inline(always)]
fn no_costs() -> u32x64
    ensures { result ≡ replicate 64 0 }
{
    u32x64::splat(0)
}

// The cost of state 0.
#[inline(always)]
fn first_lane(costs: u32x64) -> u32
    ensures { result ≡ slice_index costs 0 }
{
    costs[0]
}

// One step of the trellis. The answer has the new costs, and the states at which a 1 is taken.
#[inline(always)]
fn step(costs: u32x64, branches: StepCosts, free: bool) -> (u32x64, u64)
    requires room { HaveRoom costs }
    requires light { IsLight (2 * heaviest) branches }
    ensures costs { HasLanes result.0
        (λ k. lesser free (way (slice_index costs) branches k false) (way (slice_index costs) branches k true)) }
    ensures choices { (k : ℕ) → k < 64 → (bit_at result.1 k ≡ 1)
        ↔ (chosen free (way (slice_index costs) branches k false) (way (slice_index costs) branches k true) ≡ true) }
{
    let pairs = pair_costs(branches);
    let zero_ways = ways_by_zero(costs, pairs);
    if free {
        let one_ways = ways_by_one(costs, pairs);
        (
            lesser(zero_ways, one_ways),
            negative(differences(one_ways, zero_ways)),
        )
    } else {
        (zero_ways, 0)
    }
}

// The costs, all lowered where that of state 0 has come to the limit, and by how much.
#[inline(always)]
fn lowered(costs: u32x64) -> (u32x64, u64)
    requires close { (k : ℕ) → k < 64 → slice_index costs 0 ≤ slice_index costs k + 2 ^ 20 }
    requires few { slice_index costs 0 < 2 ^ 30 + 2 ^ 20 }
    ensures costs { (k : ℕ) → k < 64 → slice_index result.0 k + result.1 ≡ slice_index costs k }
    ensures low { slice_index result.0 0 < 2 ^ 30 }
{
    if first_lane(costs) < LIMIT {
        (costs, 0)
    } else {
        (differences(costs, u32x64::splat(FALL)), u64::from(FALL))
    }
}

// Fills in the choices of some steps, from the last to the first, and gives the costs before them from those behind them, with how
// much these were lowered. `start` is where the places of the step behind them begin, and goes back to where those of the first begin.
#[inline(always)]
fn stretch(
    pattern: Pattern,
    weights: &[i32],
    choices: &mut [u64],
    behind: (u32x64, u64),
    start: &mut usize,
    from: usize,
    to: usize,
    free: bool,
) -> (u32x64, u64)
    requires light { AreWithin heaviest weights.now }
    requires count { length weights.now ≡ sent_count pattern (length choices.old) }
    requires few { length choices.old ≤ 2 ^ 20 }
    requires order { from ≤ to }
    requires within { to ≤ length choices.old }
    requires tail { free ≡ false → length choices.old ≤ from + 6 }
    requires before { free ≡ true → from < to → to + 6 ≤ length choices.old }
    requires start { start.old ≡ sent_count pattern to }
    requires behind { AreLowered (weight_steps pattern weights.now (length choices.old) to) behind.0 behind.1 (length choices.old - to) }
    requires chosen { AreChoices (weight_steps pattern weights.now (length choices.old) to) (drop to choices.old) }
    ensures length { length choices.new ≡ length choices.old }
    ensures start { start.new ≡ sent_count pattern from }
    ensures costs { AreLowered (weight_steps pattern weights.now (length choices.old) from) result.0 result.1 (length choices.old - from) }
    ensures choices { AreChoices (weight_steps pattern weights.now (length choices.old) from) (drop from choices.new) }
{
    let (mut costs, mut fallen) = behind;
    let mut at = to;
    while at > from {
        at -= 1;
        let branches = step_at(pattern, weights, at, start);
        let (next, word) = step(costs, branches, free);
        choices[at] = word;
        let (low, fall) = lowered(next);
        costs = low;
        fallen += fall;
    }
    (costs, fallen)
}

// Fills in the choices of all steps, from the last to the first, and gives the least cost from state 0.
fn backwards_in_lanes(pattern: Pattern, weights: &[i32], choices: &mut [u64]) -> u64
    requires light { AreWithin heaviest weights.now }
    requires count { length weights.now ≡ sent_count pattern (length choices.old) }
    requires few { length choices.old ≤ 2 ^ 20 }
    ensures choices { AreChoices (word_steps weight_cost pattern weights.now (length choices.old)) choices.new }
    ensures least { result ≡ least_from (word_steps weight_cost pattern weights.now (length choices.old)) 0 }
{
    let steps = choices.len();
    let tail = steps.saturating_sub(TAIL);
    let mut start = weights.len();
    let behind = (no_costs(), 0);
    let ended = stretch(
        pattern, weights, choices, behind, &mut start, tail, steps, false,
    );
    let (costs, fallen) = stretch(pattern, weights, choices, ended, &mut start, 0, tail, true);
    fallen + u64::from(first_lane(costs))
}

/// All states at once. Weights that the lanes can't hold are left to the plain way.
struct InLanes;

impl Backwards<i32> for InLanes {
    fn backwards(pattern: Pattern, weights: &[i32], choices: &mut [u64]) -> u64 {
        if are_light(weights) {
            backwards_in_lanes(pattern, weights, choices)
        } else {
            Plain::backwards(pattern, weights, choices)
        }
    }
}

/// Decodes a punctured codeword from weights: the first terminated input whose coded bits cost least at `weights`.
///
/// `steps` is the length of the input with its tail of six zeros, from 6 to 524302, and `weights` has those of the
/// coded bits that `pattern` keeps of these steps, A before B. Any weights are decoded, and those from -65535 to
/// 65535 at speed. The memory for all steps is taken first, eight octets a step and one for each bit of the answer;
/// lack of it is the only error, and then nothing has changed.
///
/// IEEE Std 802.11-2012, clauses 18.3.5.6 and 20.3.11.6.
pub fn decode_weights(
    alloc: Global,
    steps: u32,
    pattern: Pattern,
    weights: &[i32],
) -> Result<Cheapest, AllocError>
    requires least { tail ≤ steps }
    requires most { steps ≤ 524302 }
    requires weights { length weights.now ≡ sent_count pattern steps }
    ensures { IfOk result (λ c. IsFound weight_cost steps pattern weights.now c.input c.cost) }
{
    let word = Word {
        steps,
        pattern,
        received: weights,
    };
    word.decode::<InLanes>(alloc)
}
