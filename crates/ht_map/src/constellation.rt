//! The grid of a rate.
ghost use Rattle.std.specs.Prelude.{◌≡◌};
ghost use Rattle.ht_map.specs.Constellation.{axes_of, grid_of};

use ht_pam::{Axes, Grid, Ladder};
use ht_rate::{Modulation, Rate};

/// The full constellation on each of the rate's N_SS spatial streams: all levels of I and all levels of Q.
///
/// In BPSK the one level of Q is 0.
#[tactic(auto, unfolding(crate::specs::Constellation::grid_of))]
pub fn grid(rate: &Rate) -> Grid
    ensures { result ≡ grid_of rate.now }
{
    let axes = axes(rate.modulation());
    let mut grid = Grid::one(axes.i, axes.q);
    for _ in 1..rate.streams() {
        grid = grid.and(axes.i, axes.q);
    }
    grid
}

// The ladders of a modulation: all levels of I and of Q.
#[tactic(auto, unfolding(crate::specs::Constellation::axes_of))]
fn axes(modulation: Modulation) -> Axes
    ensures { result ≡ axes_of modulation }
{
    match modulation {
        Modulation::Bpsk => Axes {
            i: Ladder::of(2, 0b11),
            q: Ladder::of(1, 0b1),
        },
        Modulation::Qpsk => square(Ladder::of(2, 0b11)),
        Modulation::Qam16 => square(Ladder::of(4, 0xf)),
        Modulation::Qam64 => square(Ladder::of(8, 0xff)),
    }
}

// One ladder for both I and Q.
fn square(ladder: Ladder) -> Axes
    ensures { result ≡ record { i = ladder; q = ladder } }
{
    Axes {
        i: ladder,
        q: ladder,
    }
}
