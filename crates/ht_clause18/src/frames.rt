//! A frame before it is sent.
ghost use Rattle.std.specs.Prelude.{◌≡◌, ◌↔◌, IsSome, IfSome};
ghost use Rattle.ht_clause18.specs.Frames.{IsLegacyPsdu};

use crate::rates::LegacyRate;
use ht_scramble::Seed;
use std::marker::Model;

/// The most octets that the twelve bits of LENGTH can say.
const MOST: usize = 4095;

/// A PSDU that is to be sent: its rate, the seed of the scrambler and its octets, 1 to 4095.
#[derive(Debug, Drop)]
pub struct LegacyFrame {
    rate: LegacyRate,
    seed: Seed,
    octets: Vec<u8>,
}

impl Model for LegacyFrame {
    ghost use Rattle.ht_clause18.specs.Frames.{LegacyFrameView, IsLegacyPsdu};

    ghost Value = { LegacyFrameView };

    ghost view = { λ f. record { rate = f.rate; seed = f.seed; octets = f.octets.items } };

    ghost invariant = { λ f. IsLegacyPsdu f.octets.items };
}

impl LegacyFrame {
    /// A frame of these octets. None exactly where there are no octets or more than 4095.
    #[must_use]
    pub fn new(rate: LegacyRate, seed: Seed, octets: Vec<u8>) -> Option<LegacyFrame>
        ensures valid { IsSome result ↔ IsLegacyPsdu octets.items }
        ensures value { IfSome result (λ f. f ≡ record { rate = rate; seed = seed; octets = octets.items }) }
    {
        if octets.is_empty() || octets.len() > MOST {
            return None;
        }
        Some(LegacyFrame { rate, seed, octets })
    }

    /// The rate.
    pub fn rate(&self) -> LegacyRate
        ensures { result ≡ self.now.rate }
    {
        self.rate
    }

    /// The seed of the scrambler.
    pub fn seed(&self) -> Seed
        ensures { result ≡ self.now.seed }
    {
        self.seed
    }

    /// The octets of the PSDU, 1 to 4095.
    pub fn octets(&self) -> &[u8]
        ensures value { result.now ≡ self.now.octets }
        ensures range { IsLegacyPsdu result.now }
    {
        self.octets.as_slice()
    }
}
