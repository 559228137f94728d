//! One stream alone: nothing is searched or walked.
ghost use Rattle.std.specs.Prelude.{◌≡◌, ◌<◌, ◌≤◌, ◌+◌, ◌^◌, ℕ, pos, length, replicate, slice_index_or, unsigned_abs};
ghost use Rattle.std.specs.Prelude.{false, true, if◌then◌else◌};
ghost use Rattle.ht_rate.specs.Schemes.{bits_of};
ghost use Rattle.ht_map.specs.Constellation.{axes_of};
ghost use Rattle.ht_metric.specs.Jobs.{near};
ghost use Rattle.ht_soft.specs.Weights.{weight_of};
ghost use Rattle.ht_weigh.specs.Walks.{half_cost, IsNamed};
ghost use Rattle.ht_weigh.specs.Weights.{AreWeights};

use crate::first::{nearest_point, other_cost};
use crate::streams::is_one;
use ht_map::label;
use ht_metric::Job;
use ht_pam::Axes;
use ht_rate::Modulation;
use ht_sphere::remainder::{Remainder, cost, remainder_of};

// The size of the heaviest weight.
const HEAVIEST: u64 = 65535;

// The weight of a bit that has this value at the nearest vector; the nearest vector with the other value is at `other`.
#[inline(always)]
#[tactic(auto, using(ht_soft::proofs::Signs::signs))]
fn weight(value: bool, nearest: u64, other: u64) -> i32
    requires { nearest ≤ other }
    ensures { result ≡ (if value then weight_of other nearest else weight_of nearest other) }
{
    let size = (other - nearest).min(HEAVIEST) as i32;
    if value { size } else { -size }
}

// Writes the weights of the bits of a label, where the nearest point has it, and its levels have these costs, that of I first.
fn write(
    modulation: Modulation,
    left: &Remainder,
    label: u8,
    costs: (u64, u64),
    weights: &mut [i32],
)
    requires re { unsigned_abs left.now.re ≤ 2 ^ 31 + 2 ^ 21 }
    requires im { unsigned_abs left.now.im ≤ 2 ^ 31 + 2 ^ 21 }
    requires named { IsNamed modulation label left.now.re left.now.im left.now.d costs.0 costs.1 }
    requires i_bound { costs.0 ≤ 2 ^ 62 + 2 ^ 55 }
    requires q_bound { costs.1 ≤ 2 ^ 62 + 2 ^ 55 }
    requires size { length weights.old ≡ bits_of modulation }
    ensures size { length weights.new ≡ length weights.old }
    ensures weights { (e : ℕ) → e < bits_of modulation → slice_index_or weights.new e (pos 0)
        ≡ weight_of (half_cost modulation e false 0 left.now.re left.now.im left.now.d) (half_cost modulation e true 0 left.now.re left.now.im left.now.d) }
{
    let nearest = costs.1 + costs.0;
    let bits = modulation.label_bits();
    for bit in 0..bits {
        let other = other_cost(modulation, left, label, costs, bit);
        weights[usize::from(bit)] = weight(is_one(label, bits - 1 - bit), nearest, other);
    }
}

// Writes the weights of all label bits of a job of one stream, and answers the least distance. The nearest point has the
// nearest level of I and that of Q, and so has the nearest one of each half.
pub(crate) fn weigh_alone(modulation: Modulation, job: &Job, weights: &mut [i32]) -> u128
    requires one { length job.now.system ≡ 1 }
    requires full { job.now.grid ≡ replicate (length job.now.grid) (axes_of modulation) }
    requires size { length weights.old ≡ bits_of modulation }
    ensures weights { AreWeights modulation job.now weights.new }
    ensures distance { result ≡ (near job.now).distance }
    ensures below { result < 2 ^ 66 }
{
    let left = remainder_of(job, 1, &[0, 0]);
    let all = Axes {
        i: job.grid().i_ladder(1),
        q: job.grid().q_ladder(1),
    };
    let point = nearest_point(&all, &left);
    let costs = (
        cost(left.d, left.re, point.i),
        cost(left.d, left.im, point.q),
    );
    if let Some(label) = label(modulation, point) {
        write(modulation, &left, label, costs, weights);
    }
    u128::from(costs.1 + costs.0)
}
