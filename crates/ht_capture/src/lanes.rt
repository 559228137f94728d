//! What was received on eight subcarriers, in lanes.
ghost use Rattle.std.specs.Prelude.{◌≡◌, ◌+◌, ◌*◌, ◌<◌, ◌≤◌, ℕ, List, drop, length, slice_index};
ghost use Rattle.std.specs.Int.{cast_signed, w32};
ghost use Rattle.byteorder.specs.Endian.{big_number};
ghost use Rattle.ht_metric.specs.Rows.{Leg, rows_of};
ghost use Rattle.ht_rounding.specs.Columns.{HasSample, HasSamples};
ghost use Rattle.ht_rounding.specs.Loading.{IsWord};
ghost use Rattle.ht_capture.specs.Systems.{samples_at};

use byteorder::{BigEndian, ByteOrder};
use ht_rounding::{Parts, SampleLanes, word};
use std::simd::prelude::*;

// The number at a place.
#[inline(always)]
fn number(octets: &[u8], at: usize) -> i32
    requires { at + 4 ≤ length octets.now }
    ensures { result ≡ cast_signed w32 (big_number 4 (drop at octets.now)) }
{
    BigEndian::read_i32(&octets[at..])
}

// Eight numbers from a place on, each so many octets behind the one before it.
#[inline(always)]
fn words(octets: &[u8], at: usize, stride: usize) -> u32x8
    requires stride { stride ≤ 32 }
    requires whole { at + 7 * stride + 4 ≤ length octets.now }
    ensures { (k : ℕ) → k < 8 → IsWord (slice_index result k) (cast_signed w32 (big_number 4 (drop (at + k * stride) octets.now))) }
{
    let mut lanes = [0u32; 8];
    for k in 0..8 {
        lanes[k] = word(number(octets, at + k * stride));
    }
    u32x8::from_array(lanes)
}

// What was received on row `row`, counted from 1, of eight subcarriers of so many streams, whose samples follow one another
// from a place on. Where there is no such row, it is 0.
#[inline(always)]
fn row(octets: &[u8], at: usize, streams: usize, row: usize) -> Parts
    requires first { 1 ≤ row }
    requires few { streams ≤ 4 }
    requires whole { at + 64 * streams ≤ length octets.now }
    ensures { (k : ℕ) (legs : List Leg) → k < 8 → length legs ≡ streams
        → HasSample result k row (rows_of legs (samples_at streams octets.now (at + k * (8 * streams)))) }
{
    if streams < row {
        let none = u32x8::splat(0);
        return Parts { re: none, im: none };
    }
    let at = at + 8 * (row - 1);
    Parts {
        re: words(octets, at, 8 * streams),
        im: words(octets, at + 4, 8 * streams),
    }
}

/// What was received on eight subcarriers of at most four streams, whose samples follow one another in the octets, from the place
/// `at` on: lane k has those of subcarrier k.
#[inline(always)]
pub fn samples(octets: &[u8], at: usize, streams: usize) -> SampleLanes
    requires few { streams ≤ 4 }
    requires whole { at + 64 * streams ≤ length octets.now }
    ensures { (k : ℕ) (legs : List Leg) → k < 8 → length legs ≡ streams
        → HasSamples result k (rows_of legs (samples_at streams octets.now (at + k * (8 * streams)))) }
{
    SampleLanes {
        first: row(octets, at, streams, 1),
        second: row(octets, at, streams, 2),
        third: row(octets, at, streams, 3),
        fourth: row(octets, at, streams, 4),
    }
}

/// What was received on eight subcarriers of one to four streams. Their samples follow one another in the octets, from the place
/// `at` on: eight octets for each stream of a subcarrier, the real part first, both big-endian with a sign. Lane k has those of
/// subcarrier k, and 0 on rows that there are no streams for. There is code of its own for each number of streams.
#[inline(always)]
pub fn samples_of(octets: &[u8], at: usize, streams: u8) -> SampleLanes
    requires some { 1 ≤ streams }
    requires few { streams ≤ 4 }
    requires whole { at + 64 * streams ≤ length octets.now }
    ensures { (k : ℕ) (legs : List Leg) → k < 8 → length legs ≡ streams
        → HasSamples result k (rows_of legs (samples_at streams octets.now (at + k * (8 * streams)))) }
{
    match streams {
        1 => samples(octets, at, 1),
        2 => samples(octets, at, 2),
        3 => samples(octets, at, 3),
        _ => samples(octets, at, 4),
    }
}
