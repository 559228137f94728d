//! The sizes of the interleaver (table 20-17).
ghost use Rattle.std.specs.Prelude.{◌≡◌, ◌≤◌};
ghost use Rattle.ht_rate.specs.Rates.{stream_bits_of, streams_of, axis_bits_of};
ghost use Rattle.ht_interleave.specs.Steps.{at_bandwidth, columns_of, rows_of, rotation_of, turn_of};

use ht_rate::{Bandwidth, Rate};

/// N_COL, the number of columns that bits are read from: 13 at 20 MHz, 18 at 40 MHz.
#[tactic(auto, unfolding(crate::specs::Steps::columns_of))]
pub fn columns(rate: &Rate) -> u16
    ensures value { result ≡ columns_of rate.now }
    ensures low { 13 ≤ result }
    ensures high { result ≤ 18 }
{
    of_bandwidth(rate.bandwidth(), 13, 18)
}

/// N_ROW, the number of rows that bits are written into: 4 at 20 MHz, 6 at 40 MHz, times the bits of a label.
#[tactic(auto, unfolding(crate::specs::Steps::rows_of))]
pub fn rows(rate: &Rate) -> u16
    ensures value { result ≡ rows_of rate.now }
    ensures low { 4 ≤ result }
    ensures high { result ≤ 36 }
{
    of_bandwidth(rate.bandwidth(), 4, 6) * u16::from(rate.label_bits())
}

/// N_ROT, from which it follows by how many places a stream is rotated: 11 at 20 MHz, 29 at 40 MHz.
#[tactic(auto, unfolding(crate::specs::Steps::rotation_of))]
pub fn rotation(rate: &Rate) -> u16
    ensures value { result ≡ rotation_of rate.now }
    ensures high { result ≤ 29 }
{
    of_bandwidth(rate.bandwidth(), 11, 29)
}

/// s, the bits of one axis of the constellation: 1, 2 or 3.
pub fn axis_bits(rate: &Rate) -> u16
    ensures value { result ≡ axis_bits_of rate.now }
    ensures low { 1 ≤ result }
    ensures high { result ≤ 3 }
{
    u16::from(rate.axis_bits())
}

/// The number of places that a stream, counted from 1, is rotated by.
#[tactic(auto, unfolding(crate::specs::Steps::turn_of))]
pub fn turn(rate: &Rate, stream: u8) -> u16
    requires { (1 ≤ stream) × (stream ≤ streams_of rate.now) }
    ensures value { result ≡ turn_of rate.now stream }
    ensures bound { result ≤ stream_bits_of rate.now }
{
    let earlier = u16::from(stream - 1);
    let factor = (2 * earlier) % 3 + 3 * (earlier / 3);
    factor * rotation(rate) * u16::from(rate.label_bits())
}

fn of_bandwidth(bandwidth: Bandwidth, narrow: u16, wide: u16) -> u16
    ensures { result ≡ at_bandwidth bandwidth narrow wide }
{
    match bandwidth {
        Bandwidth::Mhz20 => narrow,
        Bandwidth::Mhz40 => wide,
    }
}
