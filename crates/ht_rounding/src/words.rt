//! Eight numbers of 32 bits at once, modulo 2^32. A number with a sign stands in its lane modulo 2^32.
ghost use Rattle.std.specs.Prelude.{◌≡◌, ◌+◌, ◌-◌, ◌*◌, ◌%◌, ◌^◌, slice_index};
ghost use Rattle.ht_rounding.specs.Words.{HasLanes, minus, size, turned, lesser, over};

use std::simd::prelude::*;

// The sums lane by lane.
#[inline(always)]
pub(crate) fn plus(a: u32x8, b: u32x8) -> u32x8
    ensures { HasLanes result (λ k. (slice_index a k + slice_index b k) % 2 ^ 32) }
{
    a + b
}

// The differences lane by lane.
#[inline(always)]
pub(crate) fn minus(a: u32x8, b: u32x8) -> u32x8
    ensures { HasLanes result (λ k. minus (slice_index a k) (slice_index b k)) }
{
    a - b
}

// The products lane by lane.
#[inline(always)]
pub(crate) fn product(a: u32x8, b: u32x8) -> u32x8
    ensures { HasLanes result (λ k. (slice_index a k * slice_index b k) % 2 ^ 32) }
{
    a * b
}

// Each lane times a number.
#[inline(always)]
pub(crate) fn times(a: u32x8, n: u32) -> u32x8
    ensures { HasLanes result (λ k. (slice_index a k * n) % 2 ^ 32) }
{
    a * u32x8::splat(n)
}

// A number and each lane.
#[inline(always)]
pub(crate) fn raised(n: u32, a: u32x8) -> u32x8
    ensures { HasLanes result (λ k. (n + slice_index a k) % 2 ^ 32) }
{
    u32x8::splat(n) + a
}

// The lesser lane by lane.
#[inline(always)]
pub(crate) fn lesser(a: u32x8, b: u32x8) -> u32x8
    ensures { HasLanes result (λ k. lesser (slice_index a k) (slice_index b k)) }
{
    a.simd_min(b)
}

// By how much the first number is over the second, lane by lane: 0 where it isn't.
#[inline(always)]
pub(crate) fn over(a: u32x8, b: u32x8) -> u32x8
    ensures { HasLanes result (λ k. over (slice_index a k) (slice_index b k)) }
{
    a.simd_max(b) - b
}

// The sizes of lanes, as numbers with a sign.
#[inline(always)]
pub(crate) fn size(a: u32x8) -> u32x8
    ensures { HasLanes result (λ k. size (slice_index a k)) }
{
    a.simd_min(u32x8::splat(0) - a)
}

// A lane with the other sign where another lane is negative.
#[inline(always)]
pub(crate) fn turned(sign: u32x8, a: u32x8) -> u32x8
    ensures { HasLanes result (λ k. turned (slice_index sign k) (slice_index a k)) }
{
    sign.simd_ge(u32x8::splat(1 << 31))
        .select(u32x8::splat(0) - a, a)
}
