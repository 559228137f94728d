//! The points of one stream, in order.
ghost use Rattle.std.specs.Prelude.{◌≡◌};
ghost use Rattle.std.specs.List.{All};
ghost use Rattle.ht_pam.specs.Ladders.{levels};
ghost use Rattle.ht_metric.specs.Distance.{IsInRange};
ghost use Rattle.ht_metric.specs.Vectors.{points};

use arrayvec::ArrayVec;
use ht_pam::{Ladder, Point};

// Every level that a ladder may have, ascending.
const LEVELS: [i8; 9] = [-7, -5, -3, -1, 0, 1, 3, 5, 7];

// The allowed levels of a ladder, ascending.
fn levels_of(ladder: Ladder) -> ArrayVec<i8, 8>
    ensures { result.items ≡ levels ladder }
{
    let mut levels = ArrayVec::new();
    for level in LEVELS {
        if ladder.has(level) {
            levels.push(level);
        }
    }
    levels
}

/// The points with I on one ladder and Q on another: by I, and those of the same I by Q.
pub(crate) fn points_of(i_ladder: Ladder, q_ladder: Ladder) -> ArrayVec<Point, 64>
    ensures points { result.items ≡ points (record { i = i_ladder; q = q_ladder }) }
    ensures range { All IsInRange result.items }
{
    let is = levels_of(i_ladder);
    let qs = levels_of(q_ladder);
    let mut points = ArrayVec::new();
    for i in is.as_slice() {
        for q in qs.as_slice() {
            points.push(Point { i: *i, q: *q });
        }
    }
    points
}
