//! The layers between octets and label bits.
ghost use Rattle.std.specs.Prelude.{◌≡◌, ◌≢◌, ◌⊎◌, ◌↔◌, ◌<◌, ◌≤◌, ◌^◌, ℕ, false, length, slice_index, replicate, IfSome, IsNone, Ok};
ghost use Rattle.ht_scramble.specs.Sequence.{IsSeed, scrambled, first_seven};
ghost use Rattle.ht_conv.specs.Code.{sent_bits};
ghost use Rattle.ht_conv.specs.Puncturing.{sent_count};
ghost use Rattle.ht_rate.specs.Rates.{rate_of, stream_bits_of, streams_of};
ghost use Rattle.ht_rate.specs.declared.rates.Rate.{Rate as RateView};
ghost use Rattle.ht_interleave.specs.Interleaver.{origin_of, place_of};
ghost use Rattle.ht_library.specs.Codes.{pattern_at};

use crate::fault::{BAD_LENGTH, DONE, NO_MEMORY, NO_PATTERN, NO_RATE, NO_SEED, NO_STREAM};
use ht_conv::{encode, period};
use ht_interleave::{origin, place};
use ht_rate::{Pattern, Rate};
use ht_scramble::{Seed, recover, scramble};
use std::alloc::Global;

// The pattern of a number.
pub(crate) fn pattern_of(number: u8) -> Option<Pattern>
    ensures value { IfSome result (λ pattern. pattern ≡ pattern_at number) }
    ensures none { IsNone result ↔ (3 < number) }
{
    match number {
        0 => Some(Pattern::Half),
        1 => Some(Pattern::TwoThirds),
        2 => Some(Pattern::ThreeQuarters),
        3 => Some(Pattern::FiveSixths),
        _ => None,
    }
}

/// Adds the scrambling sequence of a seed to the bits, which descrambles too (clause 18.3.5.5).
#[unsafe(no_mangle)]
pub extern "C" fn mizgaure_scramble(seed: u8, bits: &mut [bool]) -> u32
    ensures done { (result ≡ 0) ↔ IsSeed seed }
    ensures fault { (result ≡ 0) ⊎ (result ≡ 4) }
    ensures kept { (result ≡ 0 → ⊥) → bits.new ≡ bits.old }
    ensures length { length bits.new ≡ length bits.old }
    ensures value { result ≡ 0 → bits.new ≡ scrambled seed bits.old }
{
    let Some(seed) = Seed::new(seed) else {
        return NO_SEED;
    };
    scramble(bits, seed);
    DONE
}

/// The seed whose sequence begins with these seven bits, which are the first ones of SERVICE as they were received (clauses
/// 18.3.5.2 and 18.3.5.5).
#[unsafe(no_mangle)]
pub extern "C" fn mizgaure_recover(bits: &[bool], seed: &mut u8) -> u32
    ensures bad_length { (result ≡ 5) ↔ (length bits.now ≢ 7) }
    ensures no_seed { (result ≡ 4) ↔ (bits.now ≡ replicate 7 false) }
    ensures fault { (result ≡ 0) ⊎ (result ≡ 4) ⊎ (result ≡ 5) }
    ensures kept { (result ≡ 0 → ⊥) → seed.new ≡ seed.old }
    ensures value { result ≡ 0 → IsSeed seed.new × (first_seven seed.new ≡ bits.now) }
{
    let Ok(first) = <&[bool; 7]>::try_from(bits) else {
        return BAD_LENGTH;
    };
    let Some(found) = recover(first) else {
        return NO_SEED;
    };
    *seed = found.value();
    DONE
}

// How many bits are sent of an input of so many bits.
fn sent_of(pattern: Pattern, input: usize) -> usize
    requires { input < 2 ^ 63 }
    ensures { result ≡ sent_count pattern input }
{
    input + input.div_ceil(period(pattern).len())
}

/// Encodes input bits by the convolutional code, and punctures what comes out (clauses 18.3.5.6 and 20.3.11.6).
#[unsafe(no_mangle)]
pub extern "C" fn mizgaure_encode(
    alloc: Global,
    pattern: u8,
    input: &[bool],
    coded: &mut [bool],
) -> u32
    ensures no_pattern { (result ≡ 3) ↔ (3 < pattern) }
    ensures bad_length { (result ≡ 5) ↔ ((pattern ≤ 3) × (length coded.old ≢ sent_count (pattern_at pattern) (length input.now))) }
    ensures fault { (result ≡ 0) ⊎ (result ≡ 1) ⊎ (result ≡ 3) ⊎ (result ≡ 5) }
    ensures kept { (result ≡ 0 → ⊥) → coded.new ≡ coded.old }
    ensures length { length coded.new ≡ length coded.old }
    ensures value { result ≡ 0 → coded.new ≡ sent_bits (pattern_at pattern) input.now }
{
    let Some(pattern) = pattern_of(pattern) else {
        return NO_PATTERN;
    };
    if coded.len() != sent_of(pattern, input.len()) {
        return BAD_LENGTH;
    }
    let Ok(bits) = encode(alloc, input, pattern) else {
        return NO_MEMORY;
    };
    coded.copy_from_slice(&bits);
    DONE
}

// Writes the places of all bits of a stream.
fn fill_places(rate: &Rate, stream: u8, places: &mut [u16])
    requires stream { (1 ≤ stream) × (stream ≤ streams_of rate.now) }
    requires all { length places.old ≡ stream_bits_of rate.now }
    ensures length { length places.new ≡ length places.old }
    ensures value { (k : ℕ) → k < length places.new → slice_index places.new k ≡ place_of rate.now stream k }
{
    for k in 0..rate.stream_bits() {
        places[usize::from(k)] = place(rate, stream, k);
    }
}

// Writes the origins of all places of a stream.
fn fill_origins(rate: &Rate, stream: u8, origins: &mut [u16])
    requires stream { (1 ≤ stream) × (stream ≤ streams_of rate.now) }
    requires all { length origins.old ≡ stream_bits_of rate.now }
    ensures length { length origins.new ≡ length origins.old }
    ensures value { (k : ℕ) → k < length origins.new → slice_index origins.new k ≡ origin_of rate.now stream k }
{
    for k in 0..rate.stream_bits() {
        origins[usize::from(k)] = origin(rate, stream, k);
    }
}

/// The place of each of the N_CBPSS bits of a symbol of a stream behind the interleaver (clause 20.3.11.8.3).
#[unsafe(no_mangle)]
pub extern "C" fn mizgaure_places(bandwidth: u8, mcs: u8, stream: u8, places: &mut [u16]) -> u32
    ensures no_rate { (result ≡ 2) ↔ ((1 < bandwidth) ⊎ (31 < mcs)) }
    ensures no_stream { (rate : RateView) → rate_of bandwidth mcs ≡ Ok rate → (result ≡ 6) ↔ ((stream < 1) ⊎ (streams_of rate < stream)) }
    ensures done { (rate : RateView) → rate_of bandwidth mcs ≡ Ok rate
        → (result ≡ 0) ↔ ((1 ≤ stream) × (stream ≤ streams_of rate) × (length places.old ≡ stream_bits_of rate)) }
    ensures fault { (result ≡ 0) ⊎ (result ≡ 2) ⊎ (result ≡ 5) ⊎ (result ≡ 6) }
    ensures kept { (result ≡ 0 → ⊥) → places.new ≡ places.old }
    ensures length { length places.new ≡ length places.old }
    ensures value { result ≡ 0 → (rate : RateView) → rate_of bandwidth mcs ≡ Ok rate
        → (k : ℕ) → k < length places.new → slice_index places.new k ≡ place_of rate stream k }
{
    let Ok(rate) = Rate::of(bandwidth, mcs) else {
        return NO_RATE;
    };
    if stream < 1 || stream > rate.streams() {
        return NO_STREAM;
    }
    if places.len() != usize::from(rate.stream_bits()) {
        return BAD_LENGTH;
    }
    fill_places(&rate, stream, places);
    DONE
}

/// The bit that stands at each of the N_CBPSS places of a symbol of a stream behind the interleaver (clause 20.3.11.8.3
/// backwards).
#[unsafe(no_mangle)]
pub extern "C" fn mizgaure_origins(bandwidth: u8, mcs: u8, stream: u8, origins: &mut [u16]) -> u32
    ensures no_rate { (result ≡ 2) ↔ ((1 < bandwidth) ⊎ (31 < mcs)) }
    ensures no_stream { (rate : RateView) → rate_of bandwidth mcs ≡ Ok rate → (result ≡ 6) ↔ ((stream < 1) ⊎ (streams_of rate < stream)) }
    ensures done { (rate : RateView) → rate_of bandwidth mcs ≡ Ok rate
        → (result ≡ 0) ↔ ((1 ≤ stream) × (stream ≤ streams_of rate) × (length origins.old ≡ stream_bits_of rate)) }
    ensures fault { (result ≡ 0) ⊎ (result ≡ 2) ⊎ (result ≡ 5) ⊎ (result ≡ 6) }
    ensures kept { (result ≡ 0 → ⊥) → origins.new ≡ origins.old }
    ensures length { length origins.new ≡ length origins.old }
    ensures value { result ≡ 0 → (rate : RateView) → rate_of bandwidth mcs ≡ Ok rate
        → (k : ℕ) → k < length origins.new → slice_index origins.new k ≡ origin_of rate stream k }
{
    let Ok(rate) = Rate::of(bandwidth, mcs) else {
        return NO_RATE;
    };
    if stream < 1 || stream > rate.streams() {
        return NO_STREAM;
    }
    if origins.len() != usize::from(rate.stream_bits()) {
        return BAD_LENGTH;
    }
    fill_origins(&rate, stream, origins);
    DONE
}
