//! All weights of a job.
ghost use Rattle.std.specs.Prelude.{◌≡◌, ◌*◌, ◌+◌, ◌<◌, ◌^◌, ◌≤◌, ℕ, [], pos, length, replicate, slice_index, slice_index_or};
ghost use Rattle.ht_rate.specs.Schemes.{bits_of};
ghost use Rattle.ht_map.specs.Constellation.{axes_of};
ghost use Rattle.ht_metric.specs.Jobs.{IsJob, near};
ghost use Rattle.ht_sphere.specs.Coordinates.{from_last};
ghost use Rattle.ht_sphere.specs.Searching.{leaves};
ghost use Rattle.ht_soft.specs.Weights.{weight_of};
ghost use Rattle.ht_weigh.specs.Leasts.{IsLowered};
ghost use Rattle.ht_weigh.specs.Walks.{Tells};
ghost use Rattle.ht_weigh.specs.Weights.{AreWeights};

use crate::alone::weigh_alone;
use crate::leasts::all_at;
use crate::walk::walk;
use ht_metric::Job;
use ht_pam::Steps;
use ht_rate::Modulation;
use ht_soft::weight;
use ht_sphere::find;
use std::marker::Brand;
use std::sync::ledger::{Blank, Ledger};

// How much farther than the nearest vector a half counts: the size of the heaviest weight.
const HEAVIEST: u128 = 65535;

/// Writes the weights of all label bits of a job, in the order stream, bit: for each bit the least distance of the vectors
/// where it is 0, less the least one of those where it is 1, cut to the range from -65535 to 65535. It answers the squared
/// distance of the job's nearest vectors, which is below 2^66.
///
/// The job's grid is the full constellation of `modulation` on each stream, and `weights` has a place for each of the
/// N_BPSCS bits of each of its streams (IEEE Std 802.11-2012, clause 20.3.11.9). Each weight is the one that
/// [`weight`](ht_soft::weight) gives of the hits of the bit's two halves, which [`half`](ht_soft::half) makes. Takes no
/// memory.
pub fn weigh(modulation: Modulation, job: &Job, weights: &mut [i32]) -> u128
    requires full { job.now.grid ≡ replicate (length job.now.grid) (axes_of modulation) }
    requires size { length weights.old ≡ length job.now.system * bits_of modulation }
    ensures weights { AreWeights modulation job.now weights.new }
    ensures distance { result ≡ (near job.now).distance }
    ensures below { result < 2 ^ 66 }
{
    if job.system().streams() == 1 {
        return weigh_alone(modulation, job, weights);
    }
    weigh_by::<Brand>(modulation, job, weights, Blank::new(1))
}

/// Writes the same weights of a job whose nearest vectors are known to be at the squared distance `least`, so that none is
/// searched for. Takes no memory.
pub fn weigh_near(modulation: Modulation, job: &Job, least: u128, weights: &mut [i32])
    requires full { job.now.grid ≡ replicate (length job.now.grid) (axes_of modulation) }
    requires size { length weights.old ≡ length job.now.system * bits_of modulation }
    requires least { least ≡ (near job.now).distance }
    requires below { least < 2 ^ 66 }
    ensures { AreWeights modulation job.now weights.new }
{
    if job.system().streams() == 1 {
        weigh_alone(modulation, job, weights);
    } else {
        weigh_near_by::<Brand>(modulation, job, least, weights, Blank::new(1));
    }
}

// The weights of any job, with a counter of its own for the levels that are tried.
fn weigh_by<L: Ledger>(modulation: Modulation, job: &Job, weights: &mut [i32], blank: Blank) -> u128
    requires name { blank.name ≡ L.name }
    requires parts { blank.parts ≡ L.parts }
    requires some { 0 < blank.parts }
    requires full { job.now.grid ≡ replicate (length job.now.grid) (axes_of modulation) }
    requires size { length weights.old ≡ length job.now.system * bits_of modulation }
    ensures weights { AreWeights modulation job.now weights.new }
    ensures distance { result ≡ (near job.now).distance }
    ensures below { result < 2 ^ 66 }
{
    let mut steps = Steps::<L>::new(blank);
    let least = find(job, &mut steps).distance;
    weigh_from(modulation, job, least, weights, &mut steps);
    least
}

// The weights of a job whose least distance is known, with a counter of its own.
fn weigh_near_by<L: Ledger>(
    modulation: Modulation,
    job: &Job,
    least: u128,
    weights: &mut [i32],
    blank: Blank,
)
    requires name { blank.name ≡ L.name }
    requires parts { blank.parts ≡ L.parts }
    requires some { 0 < blank.parts }
    requires full { job.now.grid ≡ replicate (length job.now.grid) (axes_of modulation) }
    requires size { length weights.old ≡ length job.now.system * bits_of modulation }
    requires least { least ≡ (near job.now).distance }
    requires below { least < 2 ^ 66 }
    ensures { AreWeights modulation job.now weights.new }
{
    let mut steps = Steps::<L>::new(blank);
    weigh_from(modulation, job, least, weights, &mut steps);
}

// Writes the weights of a job by one walk, from its least distance on.
fn weigh_from<L: Ledger>(
    modulation: Modulation,
    job: &Job,
    least: u128,
    weights: &mut [i32],
    steps: &mut Steps<L>,
)
    requires full { job.now.grid ≡ replicate (length job.now.grid) (axes_of modulation) }
    requires size { length weights.old ≡ length job.now.system * bits_of modulation }
    requires least { least ≡ (near job.now).distance }
    requires below { least < 2 ^ 66 }
    ensures { AreWeights modulation job.now weights.new }
{
    let clip = least + HEAVIEST;
    let mut leasts = all_at(clip);
    lower_all(modulation, job, clip, &mut leasts, steps);
    write(weights, &leasts);
}

// Lowers the least distances to those of all vectors of the job.
fn lower_all<L: Ledger>(
    modulation: Modulation,
    job: &Job,
    clip: u128,
    leasts: &mut [u128],
    steps: &mut Steps<L>,
)
    requires full { job.now.grid ≡ replicate (length job.now.grid) (axes_of modulation) }
    requires leasts { leasts.old ≡ replicate 48 clip }
    ensures job { IsJob job.now }
    ensures lowered { IsLowered (Tells modulation (leaves (from_last job.now.system job.now.grid) [] 0)) leasts.old leasts.new }
{
    let streams = job.system().streams();
    let mut levels = [0i8; 8];
    let levels = &mut levels[..2 * usize::from(streams)];
    walk(modulation, job, streams, levels, 0, clip, leasts, steps);
}

// Writes the weight of each two least distances: those with 0 and with 1 stand side by side.
fn write(weights: &mut [i32], leasts: &[u128])
    requires { 2 * length weights.old ≤ length leasts.now }
    ensures size { length weights.new ≡ length weights.old }
    ensures weights { (j : ℕ) → j < length weights.old
        → slice_index_or weights.new j (pos 0) ≡ weight_of (slice_index leasts.now (2 * j)) (slice_index leasts.now (2 * j + 1)) }
{
    for j in 0..weights.len() {
        weights[j] = weight(leasts[2 * j], leasts[2 * j + 1]);
    }
}
