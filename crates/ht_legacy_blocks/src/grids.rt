//! The grids of subcarriers.
ghost use Rattle.std.specs.Prelude.{◌≡◌, ◌<◌, [], ◌∷◌};
ghost use Rattle.ht_map.specs.Constellation.{axes_of};
ghost use Rattle.ht_capture.specs.Frames.{one_point};
ghost use Rattle.ht_clause18.specs.Pilots.{pilot_of};

use ht_clause18::legacy_pilot;
use ht_pam::{Grid, Ladder};
use ht_rate::Modulation;

/// The full constellation on one stream.
#[tactic(auto, unfolding(ht_map::specs::Constellation::axes_of))]
pub fn constellation(modulation: Modulation) -> Grid
    ensures { result ≡ axes_of modulation ∷ [] }
{
    match modulation {
        Modulation::Bpsk => Grid::one(Ladder::of(2, 0b11), Ladder::of(1, 0b1)),
        Modulation::Qpsk => Grid::one(Ladder::of(2, 0b11), Ladder::of(2, 0b11)),
        Modulation::Qam16 => Grid::one(Ladder::of(4, 0xf), Ladder::of(4, 0xf)),
        Modulation::Qam64 => Grid::one(Ladder::of(8, 0xff), Ladder::of(8, 0xff)),
    }
}

// The one point (v, 0).
fn one_value(value: i8) -> Grid
    ensures { result ≡ one_point value ∷ [] }
{
    let level = Ladder::of(2, if value == 1 { 0b10 } else { 0b01 });
    Grid::one(level, Ladder::of(1, 0b1))
}

/// The one point of a pilot in a symbol. Symbols count from 0, and so do the four pilots, from the lowest subcarrier
/// on.
pub fn pilot_point(symbol: u32, index: u8) -> Grid
    requires { index < 4 }
    ensures { result ≡ one_point (pilot_of symbol index) ∷ [] }
{
    one_value(legacy_pilot(symbol, index))
}
