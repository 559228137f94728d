//! Successive rounding.
ghost use Rattle.std.specs.Prelude.{◌≡◌, ◌⊎◌, ◌+◌, ◌*◌, ◌^◌, ◌<◌, ◌≤◌, length, drop, slice_set, unsigned_abs};
ghost use Rattle.std.specs.List.{All};
ghost use Rattle.ht_sphere.specs.Coordinates.{down};
ghost use Rattle.ht_sphere.specs.Tree.{Reached, rounding};
ghost use Rattle.ht_sphere.specs.Searching.{Among, leaves};

use crate::look::Look;
use crate::remainder::{cost, remainder_of};
use ht_metric::Job;

// Gives each coordinate of the first k streams the level that is nearest behind those chosen before. What is added to
// the distance is theirs. Each other vector is farther by at least `spare`, where that isn't 0: it fits in 64 bits, since
// the cost of a level does. Q of a stream isn't heard in its I, so who chooses another Q has the same nearest I. Each
// caller has a copy of it, as a loop.
#[inline(always)]
pub(crate) fn round<A: Look>(
    job: &Job,
    k: u8,
    levels: &mut [i8],
    distance: &mut u128,
    spare: &mut u64,
)
    requires last { k ≤ length job.now.system }
    requires size { length levels.old ≡ 2 * length job.now.system }
    requires levels { All (λ x. unsigned_abs x ≤ 7) levels.old }
    requires small { distance.old + 2 ^ 65 * k < 2 ^ 128 }
    ensures found { rounding (down job.now.system job.now.grid k) (drop (2 * k) levels.old) distance.old ≡ (levels.new, distance.new) }
    ensures bound { distance.new ≤ distance.old + (2 ^ 63 + 2 ^ 56) * k }
    ensures others { 0 < spare.new → (v : Reached) → Among (leaves (down job.now.system job.now.grid k) (drop (2 * k) levels.old) distance.old) v
        → (v ≡ (levels.new, distance.new)) ⊎ (distance.new + spare.new ≤ v.1) }
    ensures less { 0 < spare.new → distance.new + spare.new ≤ distance.old + spare.old }
    ensures more { distance.old ≤ distance.new }
    ensures levels { All (λ x. unsigned_abs x ≤ 7) levels.new }
{
    if k == 0 {
        return;
    }
    let at = 2 * usize::from(k) - 2;
    let left = remainder_of(job, k, levels);
    let q = A::nearest(job.grid().q_ladder(k), left.im, left.d);
    let i = A::nearest(job.grid().i_ladder(k), left.re, left.d);
    let cost = cost(left.d, left.im, q.level) + cost(left.d, left.re, i.level);
    set_both(levels, at, i.level, q.level);
    *distance += u128::from(cost);
    *spare = lesser(spare.saturating_sub(cost), lesser(q.margin, i.margin));
    round::<A>(job, k - 1, levels, distance, spare);
}

// Sets both levels of a stream by one write: a read of both would wait for two.
fn set_both(levels: &mut [i8], at: usize, i: i8, q: i8)
    requires { at + 2 ≤ length levels.old }
    ensures { levels.new ≡ slice_set (slice_set levels.old (at + 1) q) at i }
{
    levels[at..at + 2].copy_from_slice(&[i, q]);
}

// The lesser of two numbers.
fn lesser(a: u64, b: u64) -> u64
    ensures left { result ≤ a }
    ensures right { result ≤ b }
{
    if a < b { a } else { b }
}
