//! The stream parser, bit by bit.
ghost use Rattle.std.specs.Prelude.{◌≡◌, ◌<◌, ◌≤◌};
ghost use Rattle.ht_parse.specs.Streams.{share_of, stream_place_of};
ghost use Rattle.ht_rate.specs.Rates.{encoders_of, streams_of, stream_bits_of};

use ht_rate::Rate;

// N_CBPS / N_ES, the coded bits of each encoder in a symbol.
#[tactic(auto, using(crate::proofs::Landed::landed), unfolding(ht_parse::specs::Streams::share_of))]
pub(crate) fn share(rate: &Rate) -> u32
    ensures value { result ≡ share_of rate.now }
    ensures low { 0 < result }
    ensures high { result ≤ 2592 }
{
    u32::from(rate.coded_bits()) / u32::from(rate.encoders())
}

// The stream that takes bit i of an encoder's share, and the number of the bit there.
#[tactic(auto, using(crate::proofs::Parsed::parsing))]
pub(crate) fn stream_place(rate: &Rate, encoder: u8, i: u32) -> (u8, u16)
    requires encoder { encoder < encoders_of rate.now }
    requires share { i < share_of rate.now }
    ensures value { (result.0, result.1) ≡ stream_place_of rate.now encoder i }
    ensures stream { (1 ≤ result.0) × (result.0 ≤ streams_of rate.now) }
    ensures bit { result.1 < stream_bits_of rate.now }
{
    let encoders = u32::from(rate.encoders());
    let streams = u32::from(rate.streams());
    let group = u32::from(rate.axis_bits());
    let stream = i / group % streams + 1;
    let bit = encoders * group * (i / (streams * group)) + u32::from(encoder) * group + i % group;
    (stream as u8, bit as u16)
}
