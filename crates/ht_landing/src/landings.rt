//! The label bit where a coded bit lands.
ghost use Rattle.std.specs.Prelude.{◌≡◌, ◌<◌};
ghost use Rattle.ht_landing.specs.Landings.{IsLabelBit, landing_of};
ghost use Rattle.ht_rate.specs.Rates.{encoders_of};

use crate::shares::{share, stream_place};
use ht_interleave::place;
use ht_rate::Rate;

/// A bit of a label of a frame's data symbols.
#[derive(Clone, Copy, Debug, PartialEq, Eq)]
pub struct Landing {
    /// The OFDM symbol of the frame, from 0.
    pub symbol: u32,
    /// The spatial stream, from 1.
    pub stream: u8,
    /// The data subcarrier, from 0 at the lowest.
    pub carrier: u8,
    /// The bit of the label, from 0 at the most significant one.
    pub bit: u8,
}

impl Landing {
    /// Where coded bit number `coded` of an encoder lands. Encoders and their coded bits are numbered from 0.
    #[tactic(auto, using(crate::proofs::Landed::landed), unfolding(crate::specs::Landings::landing_of))]
    pub fn of(rate: &Rate, encoder: u8, coded: u32) -> Landing
        requires { encoder < encoders_of rate.now }
        ensures value { result ≡ landing_of rate.now encoder coded }
        ensures label { IsLabelBit rate.now result }
    {
        let share = share(rate);
        let (stream, bit) = stream_place(rate, encoder, coded % share);
        let place = place(rate, stream, bit);
        let label_bits = u16::from(rate.label_bits());
        Landing {
            symbol: coded / share,
            stream,
            carrier: (place / label_bits) as u8,
            bit: (place % label_bits) as u8,
        }
    }
}
