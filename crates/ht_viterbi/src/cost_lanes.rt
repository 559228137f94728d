//! The whole costs of the 64 states in one vector: lane `n` is that of state `n`, in 32 bits.
ghost use Rattle.std.specs.Prelude.{◌≡◌, ◌+◌, ◌-◌, ◌*◌, ◌%◌, ◌^◌, ◌<◌, ◌↔◌, nat_le, ℕ, true, false, slice_index};
ghost use Rattle.std.specs.Int.{bit_at};
ghost use Rattle.ht_viterbi.specs.Lanes.{HasLanes, HaveRoom, IsLight, heaviest, pair_costs_of};
ghost use Rattle.ht_viterbi.specs.Trellis.{StepCosts, lesser, way};

use crate::lanes::AFTER_ZERO;
use crate::pairs::StepCosts;
use std::simd::prelude::*;

// For each state the state after an input bit of 1.
const AFTER_ONE: [usize; 64] = [
    32, 32, 33, 33, 34, 34, 35, 35, 36, 36, 37, 37, 38, 38, 39, 39, 40, 40, 41, 41, 42, 42, 43, 43,
    44, 44, 45, 45, 46, 46, 47, 47, 48, 48, 49, 49, 50, 50, 51, 51, 52, 52, 53, 53, 54, 54, 55, 55,
    56, 56, 57, 57, 58, 58, 59, 59, 60, 60, 61, 61, 62, 62, 63, 63,
];

// For each state the coded bits A and B at an input bit of 0, as a number of two bits.
const CODED_AT_ZERO: [usize; 64] = [
    0, 3, 2, 1, 0, 3, 2, 1, 3, 0, 1, 2, 3, 0, 1, 2, 3, 0, 1, 2, 3, 0, 1, 2, 0, 3, 2, 1, 0, 3, 2, 1,
    1, 2, 3, 0, 1, 2, 3, 0, 2, 1, 0, 3, 2, 1, 0, 3, 2, 1, 0, 3, 2, 1, 0, 3, 1, 2, 3, 0, 1, 2, 3, 0,
];

// The same at an input bit of 1: both coded bits are the others.
const CODED_AT_ONE: [usize; 64] = [
    3, 0, 1, 2, 3, 0, 1, 2, 0, 3, 2, 1, 0, 3, 2, 1, 0, 3, 2, 1, 0, 3, 2, 1, 3, 0, 1, 2, 3, 0, 1, 2,
    2, 1, 0, 3, 2, 1, 0, 3, 1, 2, 3, 0, 1, 2, 3, 0, 1, 2, 3, 0, 1, 2, 3, 0, 2, 1, 0, 3, 2, 1, 0, 3,
];

// The branch metrics of a step: what its coded bits cost as 00, 01, 10 and 11.
#[inline(always)]
pub(crate) fn pair_costs(step: StepCosts) -> u32x4
    requires { IsLight (2 * heaviest) step }
    ensures { result ≡ pair_costs_of step }
{
    let (a, b) = step;
    u32x4::from_array([
        a.zero + b.zero,
        a.zero + b.one,
        a.one + b.zero,
        a.one + b.one,
    ])
}

// The costs by an input bit of 0 in a step with these branch metrics, from each state.
#[inline(always)]
pub(crate) fn ways_by_zero(costs: u32x64, pairs: u32x4) -> u32x64
    requires { HaveRoom costs }
    ensures { (step : StepCosts) → IsLight (2 * heaviest) step → pairs ≡ pair_costs_of step → HasLanes result (λ k. way (slice_index costs) step k false) }
{
    costs.swizzle(AFTER_ZERO) + pairs.swizzle(CODED_AT_ZERO)
}

// The costs by an input bit of 1.
#[inline(always)]
pub(crate) fn ways_by_one(costs: u32x64, pairs: u32x4) -> u32x64
    requires { HaveRoom costs }
    ensures { (step : StepCosts) → IsLight (2 * heaviest) step → pairs ≡ pair_costs_of step → HasLanes result (λ k. way (slice_index costs) step k true) }
{
    costs.swizzle(AFTER_ONE) + pairs.swizzle(CODED_AT_ONE)
}

// The differences lane by lane, modulo 2^32.
#[inline(always)]
pub(crate) fn differences(a: u32x64, b: u32x64) -> u32x64
    ensures { HasLanes result (λ k. (slice_index a k + (2 ^ 32 - slice_index b k)) % 2 ^ 32) }
{
    a - b
}

// The lesser lane by lane.
#[inline(always)]
pub(crate) fn lesser(zero: u32x64, one: u32x64) -> u32x64
    ensures { HasLanes result (λ k. lesser true (slice_index zero k) (slice_index one k)) }
{
    zero.simd_min(one)
}

// The lanes that are negative, as numbers with a sign.
#[inline(always)]
pub(crate) fn negative(differences: u32x64) -> u64
    ensures { (k : ℕ) → k < 64 → (bit_at result k ≡ 1) ↔ (nat_le (2 ^ 31) (slice_index differences k) ≡ true) }
{
    differences.simd_ge(u32x64::splat(1 << 31)).to_bitmask()
}
