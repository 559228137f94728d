//! The weights of a job.
ghost use Rattle.std.specs.Prelude.{◌≡◌, ◌+◌, ◌*◌, ◌/◌, ◌%◌, ◌^◌, ◌<◌, ◌≤◌, ◌++◌, ℕ, pos, length, replicate, slice_index_or, IfOk, IfSome, OnOk};
ghost use Rattle.ht_rate.specs.Rates.{modulation_of};
ghost use Rattle.ht_rate.specs.Schemes.{bits_of};
ghost use Rattle.ht_map.specs.Constellation.{axes_of};
ghost use Rattle.ht_metric.specs.Jobs.{near};
ghost use Rattle.ht_soft.specs.Halves.{half_of};
ghost use Rattle.ht_soft.specs.Weights.{weight_at};
ghost use Rattle.ht_weigh.specs.Weights.{AreWeights};
ghost use Rattle.ht_soft_rx.specs.Weights.{job_weights, weights_of_job};

use ht_capture::FrameHead;
use ht_feed::detect;
use ht_map::grid;
use ht_metric::Job;
use ht_pam::Axes;
use ht_rate::{Modulation, Rate};
use ht_soft::{half_of_any, weight};
use ht_weigh::{weigh, weigh_near};
use std::alloc::AllocError;

/// The number of the weights of a job.
pub(crate) fn weights_of_job(head: &FrameHead) -> u8
    ensures value { result ≡ weights_of_job head.now }
    ensures low { 1 ≤ result }
    ensures high { result ≤ 24 }
{
    head.rate.streams() * head.rate.label_bits()
}

// The least distance of a job with any grid where a bit of the label on a stream has this value. `all` has all points of the
// modulation.
fn half_distance(
    modulation: Modulation,
    all: &Axes,
    job: &Job,
    stream: u8,
    bit: u8,
    value: bool,
) -> u128
    requires all { all.now ≡ axes_of modulation }
    requires first { 1 ≤ stream }
    requires bit { bit < bits_of modulation }
    ensures { result ≡ (near (half_of modulation stream bit value job.now.number job.now)).distance }
{
    detect(&half_of_any(modulation, *all, job, stream, bit, value)).distance
}

// The weight of a bit of the label on a stream.
#[tactic(auto, unfolding(ht_soft::specs::Weights::weight_at))]
fn weigh_bit(modulation: Modulation, all: &Axes, job: &Job, stream: u8, bit: u8) -> i32
    requires all { all.now ≡ axes_of modulation }
    requires first { 1 ≤ stream }
    requires bit { bit < bits_of modulation }
    ensures { result ≡ weight_at modulation job.now stream bit }
{
    weight(
        half_distance(modulation, all, job, stream, bit, false),
        half_distance(modulation, all, job, stream, bit, true),
    )
}

// Writes the weights of a job with any grid, bit by bit.
fn weigh_bits(modulation: Modulation, all: &Axes, job: &Job, weights: &mut [i32])
    requires all { all.now ≡ axes_of modulation }
    requires few { length weights.old ≤ 24 }
    ensures size { length weights.new ≡ length weights.old }
    ensures weights { (k : ℕ) → k < length weights.old
        → slice_index_or weights.new k (pos 0) ≡ weight_at modulation job.now (k / bits_of modulation + 1) (k % bits_of modulation) }
{
    let bits = usize::from(modulation.label_bits());
    for at in 0..weights.len() {
        let stream = (at / bits + 1) as u8;
        weights[at] = weigh_bit(modulation, all, job, stream, (at % bits) as u8);
    }
}

// All points of a rate's modulation.
fn all_points(rate: &Rate) -> Axes
    ensures { result ≡ axes_of (modulation_of rate.now) }
{
    let full = grid(rate);
    Axes {
        i: full.i_ladder(1),
        q: full.q_ladder(1),
    }
}

// Writes the weights of a job with the full grid of a modulation, and answers the squared distance of its first nearest vector,
// which is `least` where that is known.
#[inline(always)]
fn weigh_full(modulation: Modulation, job: &Job, least: Option<u64>, weights: &mut [i32]) -> u128
    requires full { job.now.grid ≡ replicate (length job.now.grid) (axes_of modulation) }
    requires size { length weights.old ≡ length job.now.system * bits_of modulation }
    requires least { IfSome least (λ d. d ≡ (near job.now).distance) }
    ensures weights { AreWeights modulation job.now weights.new }
    ensures distance { result ≡ (near job.now).distance }
    ensures below { result < 2 ^ 66 }
{
    if let Some(least) = least {
        let least = u128::from(least);
        weigh_near(modulation, job, least, weights);
        return least;
    }
    weigh(modulation, job, weights)
}

// Writes the weights of a job of a frame with this head, stream by stream and bit by bit, and answers the squared distance of
// its first nearest vector, which is `least` where that is known. A job that has another grid than the frame's rate, as no capture
// has it, is weighed bit by bit.
fn weigh_job(head: &FrameHead, job: &Job, least: Option<u64>, weights: &mut [i32]) -> u128
    requires size { length weights.old ≡ weights_of_job head.now }
    requires least { IfSome least (λ d. d ≡ (near job.now).distance) }
    ensures weights { weights.new ≡ job_weights head.now job.now }
    ensures distance { result ≡ (near job.now).distance }
    ensures below { result < 2 ^ 66 }
{
    let full = grid(&head.rate);
    let modulation = head.rate.modulation();
    if job.grid().same(&full) {
        return weigh_full(modulation, job, least, weights);
    }
    let all = all_points(&head.rate);
    weigh_bits(modulation, &all, job, weights);
    detect(job).distance
}

/// Adds the weights of a job of a frame with this head behind others, stream by stream and bit by bit, and answers the squared
/// distance of its first nearest vector, which is `least` where that is known. The only error is lack of memory.
pub(crate) fn push_weights(
    head: &FrameHead,
    job: &Job,
    least: Option<u64>,
    weights: &mut Vec<i32>,
) -> Result<u128, AllocError>
    requires { IfSome least (λ d. d ≡ (near job.now).distance) }
    ensures distance { IfOk result (λ d. d ≡ (near job.now).distance) }
    ensures below { IfOk result (λ d. d < 2 ^ 66) }
    ensures pushed { OnOk result (weights.new.items ≡ weights.old.items ++ job_weights head.now job.now) }
{
    let behind = weights.len();
    weights.resize(behind + usize::from(weights_of_job(head)), 0)?;
    Ok(weigh_job(head, job, least, &mut weights[behind..]))
}
