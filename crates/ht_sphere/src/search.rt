//! The search through the tree of suffixes.
ghost use Rattle.std.specs.Prelude.{◌≡◌, [], ◌∷◌, ◌+◌, ◌-◌, ◌*◌, ◌^◌, ◌<◌, ◌≤◌, length, drop};
ghost use Rattle.ht_sphere.specs.Coordinates.{i_at, down, from_q, from_i, IsAimed};
ghost use Rattle.ht_sphere.specs.Searching.{better, AreSized, IsBestOf, IsSearched};

use crate::remainder::{cost, remainder_of};
use ht_metric::Job;
use ht_pam::{Steps, Zigzag};
use std::sync::ledger::Ledger;

// Whether one vector is nearer than another, or as near and before it.
fn is_better(left: &[i8], near: u128, right: &[i8], far: u128) -> bool
    ensures { result ≡ better (left.now, near) (right.now, far) }
{
    near < far || (near == far && left < right)
}

// Takes a vector where it is better.
fn settle(levels: &[i8], partial: u128, best: &mut [i8], distance: &mut u128)
    requires { length levels.now ≡ length best.old }
    ensures best { IsBestOf (best.old, distance.old) ((levels.now, partial) ∷ []) (best.new, distance.new) }
    ensures less { distance.new ≤ distance.old }
{
    if is_better(levels, partial, best, *distance) {
        best.copy_from_slice(levels);
        *distance = partial;
    }
}

// The best of what was found and of all vectors that end in the chosen levels, where k streams are open.
#[cycle(walk)]
pub(crate) fn search<L: Ledger>(
    job: &Job,
    k: u8,
    levels: &mut [i8],
    partial: u128,
    best: &mut [i8],
    distance: &mut u128,
    steps: &mut Steps<L>,
)
    requires last { k ≤ length job.now.system }
    requires size { AreSized job.now levels.old best.old }
    requires small { partial + 2 ^ 65 * k < 2 ^ 128 }
    ensures { IsSearched (down job.now.system job.now.grid k) (2 * k) partial levels.old (best.old, distance.old) steps.old
        levels.new (best.new, distance.new) steps.new }
{
    if k == 0 {
        settle(levels, partial, best, distance);
    } else {
        quadrature(job, k, levels, partial, best, distance, steps);
    }
}

// The same from Q of stream k on.
#[cycle(walk)]
fn quadrature<L: Ledger>(
    job: &Job,
    k: u8,
    levels: &mut [i8],
    partial: u128,
    best: &mut [i8],
    distance: &mut u128,
    steps: &mut Steps<L>,
)
    requires first { 1 ≤ k }
    requires last { k ≤ length job.now.system }
    requires size { AreSized job.now levels.old best.old }
    requires small { partial + 2 ^ 65 * k < 2 ^ 128 }
    ensures { IsSearched (from_q job.now.system job.now.grid (k - 1)) (2 * k) partial levels.old (best.old, distance.old) steps.old
        levels.new (best.new, distance.new) steps.new }
{
    let at = 2 * usize::from(k) - 1;
    let left = remainder_of(job, k, levels);
    let mut walk = Zigzag::new(job.grid().q_ladder(k), left.im, u32::from(left.d));
    while let Some(level) = walk.next(steps) {
        let next = partial + u128::from(cost(left.d, left.im, level));
        if next > *distance {
            break;
        }
        levels[at] = level;
        in_phase(job, k, left.d, left.re, levels, next, best, distance, steps);
    }
}

// The same from I of stream k on, of which Q is chosen.
#[cycle(walk)]
fn in_phase<L: Ledger>(
    job: &Job,
    k: u8,
    d: u16,
    target: i64,
    levels: &mut [i8],
    partial: u128,
    best: &mut [i8],
    distance: &mut u128,
    steps: &mut Steps<L>,
)
    requires first { 1 ≤ k }
    requires last { k ≤ length job.now.system }
    requires size { AreSized job.now levels.old best.old }
    requires small { partial + 2 ^ 65 * k < 2 ^ 128 + 2 ^ 64 }
    requires aimed { IsAimed (i_at job.now.system job.now.grid (k - 1)) (drop (2 * k - 1) levels.old) d target }
    ensures { IsSearched (from_i job.now.system job.now.grid (k - 1)) (2 * k - 1) partial levels.old (best.old, distance.old) steps.old
        levels.new (best.new, distance.new) steps.new }
{
    let at = 2 * usize::from(k) - 2;
    let mut walk = Zigzag::new(job.grid().i_ladder(k), target, u32::from(d));
    while let Some(level) = walk.next(steps) {
        let both = partial + u128::from(cost(d, target, level));
        if both > *distance {
            return;
        }
        levels[at] = level;
        search(job, k - 1, levels, both, best, distance, steps);
    }
}
