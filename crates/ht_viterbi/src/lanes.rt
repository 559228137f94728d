//! One step of the trellis on all 64 states at once: lane `n` of a vector is that of state `n`, modulo 256.
ghost use Rattle.std.specs.Prelude.{◌≡◌, ◌+◌, ◌-◌, ◌/◌, ◌%◌, ◌<◌, ◌↔◌, if◌then◌else◌, nat_le, ℕ, true, replicate, slice_index};
ghost use Rattle.std.specs.Int.{bit_at};
ghost use Rattle.ht_viterbi.specs.Lanes.{HasLanes};

use std::simd::prelude::*;

// For each state the state after an input bit of 0.
pub(crate) const AFTER_ZERO: [usize; 64] = [
    0, 0, 1, 1, 2, 2, 3, 3, 4, 4, 5, 5, 6, 6, 7, 7, 8, 8, 9, 9, 10, 10, 11, 11, 12, 12, 13, 13, 14,
    14, 15, 15, 16, 16, 17, 17, 18, 18, 19, 19, 20, 20, 21, 21, 22, 22, 23, 23, 24, 24, 25, 25, 26,
    26, 27, 27, 28, 28, 29, 29, 30, 30, 31, 31,
];

// For each state the one with the same bits but a 1 as the latest.
const WITH_ONE: [usize; 64] = [
    32, 33, 34, 35, 36, 37, 38, 39, 40, 41, 42, 43, 44, 45, 46, 47, 48, 49, 50, 51, 52, 53, 54, 55,
    56, 57, 58, 59, 60, 61, 62, 63, 32, 33, 34, 35, 36, 37, 38, 39, 40, 41, 42, 43, 44, 45, 46, 47,
    48, 49, 50, 51, 52, 53, 54, 55, 56, 57, 58, 59, 60, 61, 62, 63,
];

// The cost of the state after a 0, for each state.
#[inline(always)]
pub(crate) fn after_zero(costs: u8x64) -> u8x64
    ensures { HasLanes result (λ k. slice_index costs (k / 2)) }
{
    costs.swizzle(AFTER_ZERO)
}

// The cost of the state with the same bits but a 1 as the latest, for each state.
#[inline(always)]
pub(crate) fn with_one(costs: u8x64) -> u8x64
    ensures { HasLanes result (λ k. slice_index costs (k % 32 + 32)) }
{
    costs.swizzle(WITH_ONE)
}

// The sums lane by lane, modulo 256.
#[inline(always)]
pub(crate) fn sums(a: u8x64, b: u8x64) -> u8x64
    ensures { HasLanes result (λ k. (slice_index a k + slice_index b k) % 256) }
{
    a + b
}

// The differences lane by lane, modulo 256.
#[inline(always)]
pub(crate) fn differences(a: u8x64, b: u8x64) -> u8x64
    ensures { HasLanes result (λ k. (slice_index a k + (256 - slice_index b k)) % 256) }
{
    a - b
}

// The lanes that are negative, as octets with a sign.
#[inline(always)]
pub(crate) fn negative(differences: u8x64) -> u64
    ensures { (k : ℕ) → k < 64 → (bit_at result k ≡ 1) ↔ (nat_le 128 (slice_index differences k) ≡ true) }
{
    differences.simd_ge(u8x64::splat(128)).to_bitmask()
}

// The lanes that are negative, and 0 in place of the others.
#[inline(always)]
pub(crate) fn falls(differences: u8x64) -> u8x64
    ensures { HasLanes result (λ k. if nat_le 128 (slice_index differences k) then slice_index differences k else slice_index (replicate 64 0) k) }
{
    differences
        .simd_ge(u8x64::splat(128))
        .select(differences, u8x64::splat(0))
}
