//! The sphere detector.
ghost use Rattle.std.specs.Prelude.{◌≡◌, ◌<◌, ◌≤◌, ◌+◌, ◌*◌, ◌^◌, [], true, length, unsigned_abs};
ghost use Rattle.std.specs.List.{All};
ghost use Rattle.ht_metric.specs.Jobs.{near, IsJob, IsNear};
ghost use Rattle.ht_sphere.specs.Coordinates.{from_last};
ghost use Rattle.ht_sphere.specs.Tree.{rounding, inside, inside_of};
ghost use Rattle.ht_sphere.specs.Searching.{leaves, IsBest, IsBestOf, IsOpen};

use crate::look::{AtOne, AtTwo, Look};
use crate::round::round;
use crate::search::search;
use crate::vectors::vector_of;
use ht_metric::{Found, Hit, Job};
use ht_pam::Steps;
use std::sync::ledger::Ledger;

/// Finds the first nearest vector of a job and its distance. The steps, counted in `steps`, are at most twice as many
/// as there are suffixes inside the sphere.
///
/// A suffix is a list of allowed levels for the last of the coordinates I_1, Q_1, I_2 and so on. It is inside where its
/// partial distance is at most the distance of successive rounding, which gives each coordinate, from the last one on,
/// the level that is nearest to what the later ones leave of the sample. A step is one level that is asked for with the
/// counter, or the end of a coordinate's levels. No memory is taken.
pub fn nearest<L: Ledger>(job: &Job, steps: &mut Steps<L>) -> Hit
    ensures job { result.job ≡ job.now }
    ensures near { near job.now ≡ record { vector = result.vector; distance = result.distance } }
    ensures steps { steps.new ≤ steps.old + 2 * inside_of job.now }
{
    let Found { vector, distance } = find(job, steps);
    Hit {
        job: job.copy(),
        vector,
        distance,
    }
}

/// The same of a job that isn't needed any more: it goes into its hit without a copy.
pub fn into_hit<L: Ledger>(job: Job, steps: &mut Steps<L>) -> Hit
    ensures job { result.job ≡ job }
    ensures near { near job ≡ record { vector = result.vector; distance = result.distance } }
    ensures steps { steps.new ≤ steps.old + 2 * inside_of job }
{
    let Found { vector, distance } = find(&job, steps);
    Hit {
        job,
        vector,
        distance,
    }
}

/// The first nearest vector of a job and its distance, below 2^66, as [`nearest`] finds them, without the job.
/// Each caller has a copy of what is done for one stream and of how the vector is put together. Successive rounding
/// writes both levels of a stream at once, and the vector is written at once too, so that whoever reads them next doesn't
/// wait until narrower writes have reached memory.
#[inline(always)]
pub fn find<L: Ledger>(job: &Job, steps: &mut Steps<L>) -> Found
    ensures found { result ≡ near job.now }
    ensures near { IsNear job.now result.vector }
    ensures bound { result.distance < 2 ^ 66 }
    ensures steps { steps.new ≤ steps.old + 2 * inside_of job.now }
{
    match job.system().streams() {
        1 => found(job, 1, steps),
        streams => found(job, streams, steps),
    }
}

// The same for a job of this number of streams. Each caller has a copy of it, so that a number that is written there, as 1
// above, leaves no loop over streams.
#[inline(always)]
fn found<L: Ledger>(job: &Job, streams: u8, steps: &mut Steps<L>) -> Found
    requires job { IsJob job.now }
    requires streams { streams ≡ length job.now.system }
    ensures found { result ≡ near job.now }
    ensures near { IsNear job.now result.vector }
    ensures bound { result.distance < 2 ^ 66 }
    ensures steps { steps.new ≤ steps.old + 2 * inside_of job.now }
{
    let mut levels = [0i8; 8];
    let levels = &mut levels[..2 * usize::from(streams)];
    let distance = best_levels(job, streams, levels, steps);
    Found {
        vector: vector_of(streams, levels),
        distance,
    }
}

// The levels of the best vector, and its distance: for one stream as a copy, for several by a call.
#[inline(always)]
fn best_levels<L: Ledger>(job: &Job, streams: u8, levels: &mut [i8], steps: &mut Steps<L>) -> u128
    requires { IsOpen job.now streams levels.old }
    ensures { IsBest job.now levels.old levels.new result steps.old steps.new }
{
    match streams {
        1 => best_of(job, streams, levels, steps),
        _ => best_of_several(job, streams, levels, steps),
    }
}

// The same for a job of several streams, by a call.
#[inline(never)]
fn best_of_several<L: Ledger>(
    job: &Job,
    streams: u8,
    levels: &mut [i8],
    steps: &mut Steps<L>,
) -> u128
    requires { IsOpen job.now streams levels.old }
    ensures { IsBest job.now levels.old levels.new result steps.old steps.new }
{
    best_of(job, streams, levels, steps)
}

// The same for a job of this number of streams. Successive rounding comes first, and ends the search where no other
// vector can be as near. For one stream a second look tells all but ties; for several it would leave too many to the
// search. Each caller has a copy of it, so that a number that is written there, as 1 above, leaves no loop over streams.
#[inline(always)]
fn best_of<L: Ledger>(job: &Job, streams: u8, levels: &mut [i8], steps: &mut Steps<L>) -> u128
    requires { IsOpen job.now streams levels.old }
    ensures { IsBest job.now levels.old levels.new result steps.old steps.new }
{
    let first = rounded::<AtOne>(job, streams, levels);
    if first.is_alone {
        return first.distance;
    }
    if streams > 1 {
        return better(job, levels, first.distance, steps);
    }
    let second = rounded::<AtTwo>(job, streams, levels);
    if second.is_alone {
        return second.distance;
    }
    better(job, levels, second.distance, steps)
}

// The distance of successive rounding, and whether no other vector is as near, as far as a look can tell.
#[derive(Clone, Copy)]
struct Rounding {
    distance: u128,
    is_alone: bool,
}

// Successive rounding of all coordinates. Each caller has a copy of it, without a call.
#[inline(always)]
fn rounded<A: Look>(job: &Job, streams: u8, levels: &mut [i8]) -> Rounding
    requires { IsOpen job.now streams levels.old }
    ensures size { length levels.new ≡ length levels.old }
    ensures levels { All (λ x. unsigned_abs x ≤ 7) levels.new }
    ensures found { rounding (from_last job.now.system job.now.grid) [] 0 ≡ (levels.new, result.distance) }
    ensures alone { result.is_alone ≡ true
        → IsBestOf (levels.new, result.distance) (leaves (from_last job.now.system job.now.grid) [] 0) (levels.new, result.distance) }
    ensures bound { result.distance < 2 ^ 66 }
{
    let mut distance = 0u128;
    let mut spare = u64::MAX;
    round::<A>(job, streams, levels, &mut distance, &mut spare);
    Rounding {
        distance,
        is_alone: spare > 0,
    }
}

// The best of a vector and all others, and its distance.
#[inline(never)]
fn better<L: Ledger>(job: &Job, best: &mut [i8], distance: u128, steps: &mut Steps<L>) -> u128
    requires size { length best.old ≡ 2 * length job.now.system }
    ensures size { length best.new ≡ length best.old }
    ensures less { result ≤ distance }
    ensures best { IsBestOf (best.old, distance) (leaves (from_last job.now.system job.now.grid) [] 0) (best.new, result) }
    ensures steps { steps.new + 1 ≤ steps.old + 2 * inside distance (from_last job.now.system job.now.grid) [] 0 }
{
    let streams = job.system().streams();
    let mut levels = [0i8; 8];
    let levels = &mut levels[..2 * usize::from(streams)];
    let mut least = distance;
    search(job, streams, levels, 0, best, &mut least, steps);
    least
}
