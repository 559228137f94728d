//! The walk through the tree of suffixes.
ghost use Rattle.std.specs.Prelude.{◌≡◌, ◌+◌, ◌-◌, ◌*◌, ◌^◌, ◌<◌, ◌≤◌, length, drop};
ghost use Rattle.ht_sphere.specs.Coordinates.{i_at, down, from_q, from_i, IsAimed};
ghost use Rattle.ht_sphere.specs.Searching.{leaves};
ghost use Rattle.ht_weigh.specs.Leasts.{IsLowered};
ghost use Rattle.ht_weigh.specs.Walks.{Tells, IsReady, IsWalked};

use crate::first::{lower_others, nearest_point};
use crate::streams::{lower_label, lower_streams};
use ht_map::label;
use ht_metric::Job;
use ht_pam::{Axes, Steps, Zigzag};
use ht_rate::Modulation;
use ht_sphere::remainder::{cost, remainder_of};
use std::sync::ledger::Ledger;

// Lowers the least distances to those of all vectors that end in the chosen levels, where the first stream is open. Its
// nearest levels are the nearest vector there; those of its halves are the nearest vectors with the bit.
fn finish(
    modulation: Modulation,
    job: &Job,
    levels: &[i8],
    partial: u128,
    clip: u128,
    leasts: &mut [u128],
)
    requires some { 1 ≤ length job.now.system }
    requires ready { IsReady modulation job.now levels.now clip leasts.old }
    requires small { partial + 2 ^ 65 < 2 ^ 128 }
    ensures { IsLowered (Tells modulation (leaves (down job.now.system job.now.grid 1) (drop 2 levels.now) partial)) leasts.old leasts.new }
{
    let left = remainder_of(job, 1, levels);
    let all = Axes {
        i: job.grid().i_ladder(1),
        q: job.grid().q_ladder(1),
    };
    let point = nearest_point(&all, &left);
    let costs = (
        cost(left.d, left.re, point.i),
        cost(left.d, left.im, point.q),
    );
    let nearest = partial + u128::from(costs.1 + costs.0);
    if nearest >= clip {
        return;
    }
    lower_streams(modulation, job.system().streams(), levels, nearest, leasts);
    if let Some(label) = label(modulation, point) {
        lower_label(modulation, label, 1, 0, nearest, leasts);
        lower_others(modulation, &left, partial, label, costs, leasts);
    }
}

// Lowers the least distances to those of all vectors that end in the chosen levels, where k streams are open.
#[cycle(walk)]
pub(crate) fn walk<L: Ledger>(
    modulation: Modulation,
    job: &Job,
    k: u8,
    levels: &mut [i8],
    partial: u128,
    clip: u128,
    leasts: &mut [u128],
    steps: &mut Steps<L>,
)
    requires first { 1 ≤ k }
    requires last { k ≤ length job.now.system }
    requires ready { IsReady modulation job.now levels.old clip leasts.old }
    requires small { partial + 2 ^ 65 * k < 2 ^ 128 }
    ensures { IsWalked modulation (down job.now.system job.now.grid k) (2 * k) partial levels.old leasts.old levels.new leasts.new }
{
    if k == 1 {
        finish(modulation, job, levels, partial, clip, leasts);
    } else {
        quadrature(modulation, job, k, levels, partial, clip, leasts, steps);
    }
}

// The same from Q of stream k on.
#[cycle(walk)]
fn quadrature<L: Ledger>(
    modulation: Modulation,
    job: &Job,
    k: u8,
    levels: &mut [i8],
    partial: u128,
    clip: u128,
    leasts: &mut [u128],
    steps: &mut Steps<L>,
)
    requires first { 2 ≤ k }
    requires last { k ≤ length job.now.system }
    requires ready { IsReady modulation job.now levels.old clip leasts.old }
    requires small { partial + 2 ^ 65 * k < 2 ^ 128 }
    ensures { IsWalked modulation (from_q job.now.system job.now.grid (k - 1)) (2 * k) partial levels.old leasts.old levels.new leasts.new }
{
    let at = 2 * usize::from(k) - 1;
    let left = remainder_of(job, k, levels);
    let mut order = Zigzag::new(job.grid().q_ladder(k), left.im, u32::from(left.d));
    while let Some(level) = order.next(steps) {
        let next = partial + u128::from(cost(left.d, left.im, level));
        if next >= clip {
            break;
        }
        levels[at] = level;
        in_phase(
            modulation, job, k, left.d, left.re, levels, next, clip, leasts, steps,
        );
    }
}

// The same from I of stream k on, of which Q is chosen.
#[cycle(walk)]
fn in_phase<L: Ledger>(
    modulation: Modulation,
    job: &Job,
    k: u8,
    d: u16,
    target: i64,
    levels: &mut [i8],
    partial: u128,
    clip: u128,
    leasts: &mut [u128],
    steps: &mut Steps<L>,
)
    requires first { 2 ≤ k }
    requires last { k ≤ length job.now.system }
    requires ready { IsReady modulation job.now levels.old clip leasts.old }
    requires small { partial + 2 ^ 65 * k < 2 ^ 128 + 2 ^ 64 }
    requires aimed { IsAimed (i_at job.now.system job.now.grid (k - 1)) (drop (2 * k - 1) levels.old) d target }
    ensures { IsWalked modulation (from_i job.now.system job.now.grid (k - 1)) (2 * k - 1) partial levels.old leasts.old levels.new leasts.new }
{
    let at = 2 * usize::from(k) - 2;
    let mut order = Zigzag::new(job.grid().i_ladder(k), target, u32::from(d));
    while let Some(level) = order.next(steps) {
        let both = partial + u128::from(cost(d, target, level));
        if both >= clip {
            return;
        }
        levels[at] = level;
        walk(modulation, job, k - 1, levels, both, clip, leasts, steps);
    }
}
