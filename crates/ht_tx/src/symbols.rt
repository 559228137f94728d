//! A frame as it is sent.
ghost use Rattle.std.specs.Prelude.{◌≡◌};
ghost use Rattle.ht_tx.specs.Symbols.{IsSymbols};

use crate::points::Points;
use ht_pam::Point;
use ht_rate::Rate;
use std::marker::Model;

/// The symbols of a frame: its rate, the number of octets of its PSDU, 1 to 65535, and its points.
///
/// There are N_SYM * N_ST * N_SS points, in the order symbol, subcarrier, stream. Each point of a data subcarrier is on
/// the constellation, and each point of a pilot is (v, 0) with the pilot's value v.
#[derive(Debug, Drop)]
pub struct Symbols {
    rate: Rate,
    length: u16,
    points: Points,
}

impl Model for Symbols {
    ghost use Rattle.ht_tx.specs.Symbols.{SymbolsView, IsSymbols};

    ghost Value = { SymbolsView };

    ghost view = { λ s. record { rate = s.rate; length = s.length; points = s.points } };

    ghost invariant = { λ s. IsSymbols s.rate s.length s.points };
}

impl Symbols {
    /// The symbols that these points are. The points must be those of a frame of this rate and number of octets.
    pub fn new(rate: Rate, length: u16, points: Points) -> Symbols
        requires { IsSymbols rate length points }
        ensures { result ≡ record { rate = rate; length = length; points = points } }
    {
        Symbols {
            rate,
            length,
            points,
        }
    }

    /// The rate.
    pub fn rate(&self) -> Rate
        ensures { result ≡ self.now.rate }
    {
        self.rate
    }

    /// The number of octets of the PSDU, 1 to 65535.
    pub fn length(&self) -> u16
        ensures { result ≡ self.now.length }
    {
        self.length
    }

    /// The points, in the order symbol, subcarrier, stream.
    pub fn points(&self) -> &[Point]
        ensures value { result.now ≡ self.now.points }
        ensures fits { IsSymbols self.now.rate self.now.length self.now.points }
    {
        self.points.as_slice()
    }
}
