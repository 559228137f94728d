//! The place of a single bit, and the bit of a single place.
ghost use Rattle.std.specs.Prelude.{◌≡◌, ◌<◌, ◌≤◌};
ghost use Rattle.ht_rate.specs.Rates.{streams_of, stream_bits_of};
ghost use Rattle.ht_interleave.specs.Interleaver.{place_of, origin_of};
ghost use Rattle.ht_interleave.specs.Steps.{first, second, third, first_back, second_back, third_back};

use crate::table::{axis_bits, columns, rows, turn};
use ht_rate::Rate;

/// The place of bit `k` of spatial stream `stream`. Bits and places are numbered from 0 and below `rate.stream_bits()`,
/// streams from 1 to `rate.streams()`.
#[tactic(auto, using(crate::proofs::Inverse::brought_back), unfolding(crate::specs::Interleaver::place_of))]
pub fn place(rate: &Rate, stream: u8, k: u16) -> u16
    requires stream { (1 ≤ stream) × (stream ≤ streams_of rate.now) }
    requires bit { k < stream_bits_of rate.now }
    ensures value { result ≡ place_of rate.now stream k }
    ensures bound { result < stream_bits_of rate.now }
    ensures inverse { origin_of rate.now stream result ≡ k }
{
    rotated(rate, stream, regrouped(rate, by_columns(rate, k)))
}

/// The bit that goes to place `r` of spatial stream `stream`: the inverse of [`place`].
#[tactic(auto, using(crate::proofs::Inverse::brought_there), unfolding(crate::specs::Interleaver::origin_of))]
pub fn origin(rate: &Rate, stream: u8, r: u16) -> u16
    requires stream { (1 ≤ stream) × (stream ≤ streams_of rate.now) }
    requires place { r < stream_bits_of rate.now }
    ensures value { result ≡ origin_of rate.now stream r }
    ensures bound { result < stream_bits_of rate.now }
    ensures inverse { place_of rate.now stream result ≡ r }
{
    by_rows(rate, regrouped_back(rate, rotated_back(rate, stream, r)))
}

// The first step.
fn by_columns(rate: &Rate, k: u16) -> u16
    requires { k < stream_bits_of rate.now }
    ensures value { result ≡ first rate.now k }
    ensures bound { result < stream_bits_of rate.now }
{
    let columns = columns(rate);
    rows(rate) * (k % columns) + k / columns
}

// The second step.
fn regrouped(rate: &Rate, i: u16) -> u16
    requires { i < stream_bits_of rate.now }
    ensures value { result ≡ second rate.now i }
    ensures bound { result < stream_bits_of rate.now }
{
    let s = axis_bits(rate);
    let size = rate.stream_bits();
    s * (i / s) + (i + size - columns(rate) * i / size) % s
}

// The third step.
fn rotated(rate: &Rate, stream: u8, j: u16) -> u16
    requires stream { (1 ≤ stream) × (stream ≤ streams_of rate.now) }
    requires place { j < stream_bits_of rate.now }
    ensures value { result ≡ third rate.now stream j }
    ensures bound { result < stream_bits_of rate.now }
{
    let size = rate.stream_bits();
    (j + size - turn(rate, stream)) % size
}

// Back from the third step.
fn rotated_back(rate: &Rate, stream: u8, r: u16) -> u16
    requires stream { (1 ≤ stream) × (stream ≤ streams_of rate.now) }
    requires place { r < stream_bits_of rate.now }
    ensures value { result ≡ third_back rate.now stream r }
    ensures bound { result < stream_bits_of rate.now }
{
    (r + turn(rate, stream)) % rate.stream_bits()
}

// Back from the second step.
fn regrouped_back(rate: &Rate, j: u16) -> u16
    requires { j < stream_bits_of rate.now }
    ensures value { result ≡ second_back rate.now j }
    ensures bound { result < stream_bits_of rate.now }
{
    let s = axis_bits(rate);
    s * (j / s) + (j + columns(rate) * j / rate.stream_bits()) % s
}

// Back from the first step.
fn by_rows(rate: &Rate, i: u16) -> u16
    requires { i < stream_bits_of rate.now }
    ensures value { result ≡ first_back rate.now i }
    ensures bound { result < stream_bits_of rate.now }
{
    columns(rate) * i - (rate.stream_bits() - 1) * (i / rows(rate))
}
