//! Laws of the interleaver, each the contract of a function that does nothing.
ghost use Rattle.std.specs.Prelude.{◌≡◌, ◌<◌, ◌≤◌};
ghost use Rattle.ht_rate.specs.Rates.{streams_of, stream_bits_of};
ghost use Rattle.ht_interleave.specs.Interleaver.{place_of, origin_of, IsInterleaved};

use ht_rate::Rate;

/// Places and origins are inverse to each other, both ways, at each place of each stream.
pub fn inverse(rate: &Rate, stream: u8, k: u16)
    requires stream { (1 ≤ stream) × (stream ≤ streams_of rate.now) }
    requires bit { k < stream_bits_of rate.now }
    ensures origin_of_place { origin_of rate.now stream (place_of rate.now stream k) ≡ k }
    ensures place_of_origin { place_of rate.now stream (origin_of rate.now stream k) ≡ k }
    ensures place_bound { place_of rate.now stream k < stream_bits_of rate.now }
    ensures origin_bound { origin_of rate.now stream k < stream_bits_of rate.now }
{}

/// There is only one way to interleave a list of bits.
pub fn same_places(rate: &Rate, stream: u8, bits: &[bool], a: &[bool], b: &[bool])
    requires stream { (1 ≤ stream) × (stream ≤ streams_of rate.now) }
    requires a { IsInterleaved rate.now stream bits.now a.now }
    requires b { IsInterleaved rate.now stream bits.now b.now }
    ensures { a.now ≡ b.now }
{}

/// Interleaved bits come from one list alone, so [`deinterleave`](crate::deinterleave) undoes
/// [`interleave`](crate::interleave).
pub fn same_source(rate: &Rate, stream: u8, a: &[bool], b: &[bool], places: &[bool])
    requires stream { (1 ≤ stream) × (stream ≤ streams_of rate.now) }
    requires a { IsInterleaved rate.now stream a.now places.now }
    requires b { IsInterleaved rate.now stream b.now places.now }
    ensures { a.now ≡ b.now }
{}
