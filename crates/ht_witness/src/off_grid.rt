//! Whether a vector is of a grid.
ghost use Rattle.std.specs.Prelude.{◌≡◌, ◌-◌, ◌≤◌, ◌&&◌, length, slice_index_or};
ghost use Rattle.ht_pam.specs.Ladders.{has};
ghost use Rattle.ht_pam.specs.Grids.{no_axes};
ghost use Rattle.ht_witness.specs.Certificates.{first_off};

use ht_metric::Vector;
use ht_pam::{Grid, Point};

// Whether a stream may have the point.
fn allows(grid: &Grid, stream: u8, point: Point) -> bool
    requires first { 1 ≤ stream }
    requires last { stream ≤ length grid.now }
    ensures { result ≡ (has (slice_index_or grid.now (stream - 1) no_axes).i point.i && has (slice_index_or grid.now (stream - 1) no_axes).q point.q) }
{
    grid.i_ladder(stream).has(point.i) && grid.q_ladder(stream).has(point.q)
}

// The lowest stream whose point isn't in the grid.
pub(crate) fn off_grid(grid: &Grid, vector: &Vector) -> Option<u8>
    requires { length vector.now ≡ length grid.now }
    ensures { result ≡ first_off 1 grid.now vector.now }
{
    for at in 0..grid.streams() {
        if !allows(grid, at + 1, vector.point(at + 1)) {
            return Some(at + 1);
        }
    }
    None
}
