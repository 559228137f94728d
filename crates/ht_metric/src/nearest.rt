//! The plain detector: it tries every vector of the grid.
ghost use Rattle.std.specs.Prelude.{◌≡◌, ◌≤◌, length, Some, IfSome, nat_lt, not, ◌||◌, ◌&&◌};
ghost use Rattle.std.specs.List.{All, fold};
ghost use Rattle.ht_nearest.specs.Nearest.{keep};
ghost use Rattle.ht_metric.specs.Distance.{distance_of, IsInRange};
ghost use Rattle.ht_metric.specs.Vectors.{before};
ghost use Rattle.ht_metric.specs.Jobs.{near};
ghost use Rattle.ht_metric.specs.Trying.{IsMeasured, vector_of, ends_of};

use crate::found::Found;
use crate::grid_points::points_of;
use crate::hit::Hit;
use crate::job::Job;
use crate::metric::distance;
use crate::system::System;
use crate::vector::Vector;
use ht_pam::Grid;

/// The job with its first nearest vector, found by trying every vector of its grid.
///
/// A grid of 64-QAM on four streams has 16,777,216 vectors.
pub fn plain_nearest(job: &Job) -> Hit
    ensures job { result.job ≡ job.now }
    ensures near { near job.now ≡ record { vector = result.vector; distance = result.distance } }
{
    match try_ends(job.system(), job.grid(), Vector::new(), None) {
        Some(best) => Hit::of(job.copy(), best.vector, best.distance),
        None => unreachable!(),
    }
}

// The best of the best so far and all vectors that begin with these points.
fn try_ends(system: &System, grid: &Grid, front: Vector, best: Option<Found>) -> Option<Found>
    requires streams { length grid.now ≡ length system.now }
    requires front { length front ≤ length grid.now }
    requires levels { All IsInRange front }
    requires best { IfSome best (IsMeasured system.now) }
    ensures found { vector_of result ≡ fold (keep (distance_of system.now) before) (vector_of best) (ends_of grid.now front) }
    ensures best { IfSome result (IsMeasured system.now) }
{
    let at = front.len();
    if at == grid.streams() {
        return Some(better(system, best, front));
    }
    let mut best = best;
    for point in points_of(grid.i_ladder(at + 1), grid.q_ladder(at + 1)).as_slice() {
        let mut next = front;
        next.push(*point);
        best = try_ends(system, grid, next, best);
    }
    best
}

// The better of the best so far and one more vector.
fn better(system: &System, best: Option<Found>, vector: Vector) -> Found
    requires streams { length vector ≡ length system.now }
    requires levels { All IsInRange vector }
    requires best { IfSome best (IsMeasured system.now) }
    ensures found { Some result.vector ≡ keep (distance_of system.now) before (vector_of best) vector }
    ensures best { IsMeasured system.now result }
{
    let distance = distance(system, &vector);
    match best {
        Some(old) if !is_better(distance, &vector, &old) => old,
        _ => Found { vector, distance },
    }
}

// Whether a vector is nearer than another, or as near and before it.
fn is_better(distance: u128, vector: &Vector, old: &Found) -> bool
    requires { length vector.now ≡ length old.now.vector }
    ensures { result ≡ (nat_lt distance old.now.distance || (not (nat_lt old.now.distance distance) && before vector.now old.now.vector)) }
{
    distance < old.distance || (distance == old.distance && vector.before(&old.vector))
}
