//! The points of all streams.
ghost use Rattle.std.specs.Prelude.{◌≡◌, ◌≤◌, ◌<◌, ◌-◌, ◌++◌, [], ◌∷◌, length, slice_index_or, IsTrue, ◌↔◌};
ghost use Rattle.ht_pam.specs.Ladders.{IsLadder};
ghost use Rattle.ht_pam.specs.Grids.{IsGrid, no_axes};

use crate::axes::Axes;
use crate::ladder::Ladder;
use std::marker::Model;

/// The points that each of one to four spatial streams may have.
#[derive(Clone, Copy, Debug, PartialEq, Eq)]
pub struct Grid {
    streams: u8,
    axes: [Axes; 4],
}

impl Model for Grid {
    ghost use Rattle.std.specs.Prelude.{◌-◌, ◌++◌, List, length, take};
    ghost use Rattle.ht_pam.specs.declared.axes.Axes.{Axes};

    ghost Value = { List Axes };

    ghost use Rattle.ht_pam.specs.Grids.{IsGrid, IsPaddedGrid, no_axes};
    ghost use Rattle.ht_pam.specs.Shown.{grid_fields, grid_fields-shown};

    ghost view = { λ g. take g.streams g.axes };

    ghost invariant = { λ g. IsPaddedGrid g.streams g.axes × IsGrid (take g.streams g.axes) };

    ghost inverse = { grid_fields };

    ghost inverse_ok = { grid_fields-shown };
}

impl Grid {
    /// The grid of one stream.
    pub fn one(i: Ladder, q: Ladder) -> Grid
        ensures { result ≡ record { i = i; q = q } ∷ [] }
    {
        let mut axes = [unused(); 4];
        axes[0] = Axes { i, q };
        Grid { streams: 1, axes }
    }

    /// The grid with one more stream behind the others, of which there are at most three.
    pub fn and(self, i: Ladder, q: Ladder) -> Grid
        requires { length self < 4 }
        ensures { result ≡ self ++ record { i = i; q = q } ∷ [] }
    {
        let mut grid = self;
        grid.axes[usize::from(grid.streams)] = Axes { i, q };
        grid.streams += 1;
        grid
    }

    /// The number of streams, 1 to 4.
    pub fn streams(&self) -> u8
        ensures number { result ≡ length self.now }
        ensures grid { IsGrid self.now }
    {
        self.streams
    }

    /// Whether both grids have the same points on each stream, as `==` says too.
    pub fn same(&self, other: &Grid) -> bool
        ensures { IsTrue result ↔ (self.now ≡ other.now) }
    {
        // Nothing is skipped once a difference is found: without jumps the arrays are compared in few instructions.
        let mut same = self.streams == other.streams;
        for k in 0..4 {
            same = same & self.axes[k].same(&other.axes[k]);
        }
        same
    }

    /// The ladder of I on a stream, the first one being stream 1.
    pub fn i_ladder(&self, stream: u8) -> Ladder
        requires first { 1 ≤ stream }
        requires last { stream ≤ length self.now }
        ensures value { result ≡ (slice_index_or self.now (stream - 1) no_axes).i }
        ensures ladder { IsLadder result }
    {
        self.axes[usize::from(stream) - 1].i
    }

    /// The ladder of Q on a stream, the first one being stream 1.
    pub fn q_ladder(&self, stream: u8) -> Ladder
        requires first { 1 ≤ stream }
        requires last { stream ≤ length self.now }
        ensures value { result ≡ (slice_index_or self.now (stream - 1) no_axes).q }
        ensures ladder { IsLadder result }
    {
        self.axes[usize::from(stream) - 1].q
    }
}

// The ladders of a stream that is not there.
fn unused() -> Axes
    ensures { result ≡ no_axes }
{
    let zero = Ladder::of(1, 1);
    Axes { i: zero, q: zero }
}
