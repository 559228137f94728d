//! A whole symbol's bits of one spatial stream, interleaved and back.
ghost use Rattle.std.specs.Prelude.{◌≡◌, ◌<◌, ◌≤◌, ℕ, false, length, slice_index_or};
ghost use Rattle.ht_rate.specs.Rates.{streams_of, stream_bits_of};
ghost use Rattle.ht_interleave.specs.Interleaver.{origin_of, IsInterleaved};

use crate::places::{origin, place};
use ht_rate::Rate;

/// Puts the bits of spatial stream `stream` in one symbol into their places: bit `k` of `from` goes to `place(rate,
/// stream, k)` of `into`. Both slices have `rate.stream_bits()` bits; streams are numbered from 1.
pub fn interleave(rate: &Rate, stream: u8, from: &[bool], into: &mut [bool])
    requires stream { (1 ≤ stream) × (stream ≤ streams_of rate.now) }
    requires from_size { length from.now ≡ stream_bits_of rate.now }
    requires into_size { length into.old ≡ stream_bits_of rate.now }
    ensures interleaved { IsInterleaved rate.now stream from.now into.new }
    ensures gathered { (r : ℕ) → r < stream_bits_of rate.now
        → slice_index_or into.new r false ≡ slice_index_or from.now (origin_of rate.now stream r) false }
{
    for r in 0..rate.stream_bits() {
        into[usize::from(r)] = from[usize::from(origin(rate, stream, r))];
    }
}

/// Takes the bits of spatial stream `stream` in one symbol back from their places: the inverse of [`interleave`].
pub fn deinterleave(rate: &Rate, stream: u8, from: &[bool], into: &mut [bool])
    requires stream { (1 ≤ stream) × (stream ≤ streams_of rate.now) }
    requires from_size { length from.now ≡ stream_bits_of rate.now }
    requires into_size { length into.old ≡ stream_bits_of rate.now }
    ensures restored { IsInterleaved rate.now stream into.new from.now }
    ensures scattered { (r : ℕ) → r < stream_bits_of rate.now
        → slice_index_or into.new (origin_of rate.now stream r) false ≡ slice_index_or from.now r false }
{
    for k in 0..rate.stream_bits() {
        into[usize::from(k)] = from[usize::from(place(rate, stream, k))];
    }
}
