//! Numbers of eight subcarriers, loaded from octets into lanes.
ghost use Rattle.std.specs.Prelude.{◌≡◌, ◌+◌, ◌*◌, ◌^◌, ◌<◌, ◌≤◌, ℕ, drop, length, slice_index};
ghost use Rattle.std.specs.Int.{cast_signed, w32};
ghost use Rattle.byteorder.specs.Endian.{big_number};
ghost use Rattle.ht_capture.specs.Numbers.{unsigned_at};
ghost use Rattle.ht_rounding.specs.Loading.{IsWord};

use byteorder::{BigEndian, ByteOrder};
use ht_rounding::word;
use std::simd::prelude::*;

// The number of two octets at a place.
#[inline(always)]
fn short(octets: &[u8], at: usize) -> u32
    requires { at + 2 ≤ length octets.now }
    ensures value { result ≡ unsigned_at octets.now at }
    ensures below { result < 2 ^ 16 }
{
    u32::from(BigEndian::read_u16(&octets[at..]))
}

/// Eight numbers of two octets, which follow one another from a place on.
#[inline(always)]
pub fn shorts(octets: &[u8], at: usize) -> u32x8
    requires { at + 16 ≤ length octets.now }
    ensures values { (k : ℕ) → k < 8 → slice_index result k ≡ unsigned_at octets.now (at + 2 * k) }
    ensures below { (k : ℕ) → k < 8 → slice_index result k < 2 ^ 16 }
{
    let mut lanes = [0u32; 8];
    for k in 0..8 {
        lanes[k] = short(octets, at + 2 * k);
    }
    u32x8::from_array(lanes)
}

// The number of four octets at a place, with a sign.
#[inline(always)]
fn number(octets: &[u8], at: usize) -> i32
    requires { at + 4 ≤ length octets.now }
    ensures { result ≡ cast_signed w32 (big_number 4 (drop at octets.now)) }
{
    BigEndian::read_i32(&octets[at..])
}

/// Eight numbers of four octets with a sign, each eight octets behind the one before it.
#[inline(always)]
pub fn words(octets: &[u8], at: usize) -> u32x8
    requires { at + 60 ≤ length octets.now }
    ensures { (k : ℕ) → k < 8 → IsWord (slice_index result k) (cast_signed w32 (big_number 4 (drop (at + 8 * k) octets.now))) }
{
    let mut lanes = [0u32; 8];
    for k in 0..8 {
        lanes[k] = word(number(octets, at + 8 * k));
    }
    u32x8::from_array(lanes)
}
