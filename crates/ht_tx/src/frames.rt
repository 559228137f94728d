//! A frame before it is sent.
ghost use Rattle.std.specs.Prelude.{◌≡◌, ◌↔◌, IsSome, IfSome};
ghost use Rattle.ht_tx.specs.Frames.{IsPsdu};

use ht_rate::Rate;
use ht_scramble::Seed;
use std::marker::Model;

/// A PSDU that is to be sent: its rate, the seed of the scrambler and its octets, 1 to 65535.
#[derive(Debug, Drop)]
pub struct Frame {
    rate: Rate,
    seed: Seed,
    octets: Vec<u8>,
}

impl Model for Frame {
    ghost use Rattle.ht_tx.specs.Frames.{FrameView, IsPsdu};

    ghost Value = { FrameView };

    ghost view = { λ f. record { rate = f.rate; seed = f.seed; octets = f.octets.items } };

    ghost invariant = { λ f. IsPsdu f.octets.items };
}

impl Frame {
    /// A frame of these octets. None exactly where there are no octets or more than 65535.
    #[must_use]
    pub fn new(rate: Rate, seed: Seed, octets: Vec<u8>) -> Option<Frame>
        ensures valid { IsSome result ↔ IsPsdu octets.items }
        ensures value { IfSome result (λ f. f ≡ record { rate = rate; seed = seed; octets = octets.items }) }
    {
        if octets.is_empty() || octets.len() > 65535 {
            return None;
        }
        Some(Frame { rate, seed, octets })
    }

    /// The rate.
    pub fn rate(&self) -> Rate
        ensures { result ≡ self.now.rate }
    {
        self.rate
    }

    /// The seed of the scrambler.
    pub fn seed(&self) -> Seed
        ensures { result ≡ self.now.seed }
    {
        self.seed
    }

    /// The octets of the PSDU, 1 to 65535.
    pub fn octets(&self) -> &[u8]
        ensures value { result.now ≡ self.now.octets }
        ensures range { IsPsdu result.now }
    {
        self.octets.as_slice()
    }
}
