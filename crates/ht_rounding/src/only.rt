//! Jobs that have one vector, as those of pilots have.
ghost use Rattle.std.specs.Prelude.{◌≡◌, ◌-◌, ◌^◌, ◌<◌, ◌≤◌, length, slice_index_or, IfSome};
ghost use Rattle.ht_metric.specs.Jobs.{near};
ghost use Rattle.ht_pam.specs.Grids.{no_axes};
ghost use Rattle.ht_rounding.specs.Only.{AreOnly, IsOnly};

use ht_metric::{Found, Job, Vector, distance};
use ht_pam::{Grid, Ladder, Point};

// The one level that a ladder of at most two levels allows, or none where it allows two, or has more levels.
#[inline(always)]
fn only_level(ladder: Ladder) -> Option<i8>
    ensures { IfSome result (λ level. IsOnly ladder level) }
{
    if ladder == Ladder::of(2, 0b10) {
        return Some(1);
    }
    if ladder == Ladder::of(2, 0b01) {
        return Some(-1);
    }
    if ladder == Ladder::of(1, 0b1) {
        return Some(0);
    }
    None
}

// The one point of a stream that has such ladders, or none.
#[inline(always)]
fn only_point(grid: &Grid, stream: u8) -> Option<Point>
    requires first { 1 ≤ stream }
    requires last { stream ≤ length grid.now }
    ensures { IfSome result (λ point. IsOnly (slice_index_or grid.now (stream - 1) no_axes).i point.i
        × IsOnly (slice_index_or grid.now (stream - 1) no_axes).q point.q) }
{
    let i = only_level(grid.i_ladder(stream))?;
    let q = only_level(grid.q_ladder(stream))?;
    Some(Point { i, q })
}

// The one vector of a grid that has such points, or none.
fn only_vector(grid: &Grid) -> Option<Vector>
    ensures { IfSome result (λ vector. AreOnly grid.now vector) }
{
    let mut vector = Vector::new();
    for stream in 0..grid.streams() {
        vector.push(only_point(grid, stream + 1)?);
    }
    Some(vector)
}

/// The first nearest vector of a job with its squared distance, which is below 2^66, where the job's grid has one vector, of
/// levels -1, 0 and 1: then its distance alone is to be told. None for other jobs.
pub fn find_only(job: &Job) -> Option<Found>
    ensures near { IfSome result (λ found. found ≡ near job.now) }
    ensures below { IfSome result (λ found. found.distance < 2 ^ 66) }
{
    let vector = only_vector(job.grid())?;
    let distance = distance(job.system(), &vector);
    Some(Found { vector, distance })
}
