//! What is left of a row of a system.
ghost use Rattle.std.specs.Prelude.{◌≡◌, ◌≤◌, ◌+◌, ◌-◌, ◌*◌, ◌^◌, ◌-ℤ◌, ◌*ℤ◌, pos, ℤ, ◌∷◌, length, drop, unsigned_abs};
ghost use Rattle.std.specs.List.{All};
ghost use Rattle.ht_pam.specs.Zigzags.{gap};
ghost use Rattle.ht_metric.specs.Distance.{square};
ghost use Rattle.ht_sphere.specs.Coordinates.{i_at, q_at, left_i, left_q, target};

use ht_metric::{Complex, Job, System, stretched};
use ht_pam::Point;

/// What the levels of the streams behind a row leave of its sample, and its diagonal. The real part is the target of I of
/// the row's own stream, the imaginary part that of Q.
#[derive(Clone, Copy)]
pub struct Remainder {
    /// The real part, the target of I.
    pub re: i64,
    /// The imaginary part, the target of Q.
    pub im: i64,
    /// The diagonal entry.
    pub d: u16,
}

/// What is left of row `k`, counted from 1, where the levels of the streams behind it are chosen. They stand in the order
/// I_1, Q_1, I_2 and so on.
pub fn remainder_of(job: &Job, k: u8, levels: &[i8]) -> Remainder
    requires first { 1 ≤ k }
    requires last { k ≤ length job.now.system }
    requires size { length levels.now ≡ 2 * length job.now.system }
    requires levels { All (λ x. unsigned_abs x ≤ 7) levels.now }
    ensures d { result.d ≡ (q_at job.now.system job.now.grid (k - 1)).diagonal }
    ensures re { (q : ℤ) → result.re ≡ target (i_at job.now.system job.now.grid (k - 1)) (q ∷ drop (2 * k) levels.now) }
    ensures im { result.im ≡ target (q_at job.now.system job.now.grid (k - 1)) (drop (2 * k) levels.now) }
    ensures re_bound { unsigned_abs result.re ≤ 2 ^ 31 + 2 ^ 21 }
    ensures im_bound { unsigned_abs result.im ≤ 2 ^ 31 + 2 ^ 21 }
{
    let left = left_of(job.system(), k, levels);
    Remainder {
        re: left.re,
        im: left.im,
        d: job.system().diagonal(k),
    }
}

// What the levels of the streams behind row k leave of its sample.
fn left_of(system: &System, k: u8, levels: &[i8]) -> Complex
    requires first { 1 ≤ k }
    requires last { k ≤ length system.now }
    requires size { length levels.now ≡ 2 * length system.now }
    requires levels { All (λ x. unsigned_abs x ≤ 7) levels.now }
    ensures re { result.re ≡ left_i system.now k (drop (2 * k) levels.now) }
    ensures im { result.im ≡ left_q system.now k (drop (2 * k) levels.now) }
    ensures re_bound { unsigned_abs result.re ≤ 2 ^ 31 + 2 ^ 21 }
    ensures im_bound { unsigned_abs result.im ≤ 2 ^ 31 + 2 ^ 21 }
{
    let sample = system.sample(k);
    let mut re = i64::from(sample.re);
    let mut im = i64::from(sample.im);
    for l in k..system.streams() {
        let at = 2 * usize::from(l);
        let point = Point {
            i: levels[at],
            q: levels[at + 1],
        };
        let part = system.above(k, l + 1).times(point);
        re -= part.re;
        im -= part.im;
    }
    Complex { re, im }
}

/// The square of what a level, times the diagonal, leaves of the target.
pub fn cost(d: u16, target: i64, level: i8) -> u64
    requires target { unsigned_abs target ≤ 2 ^ 31 + 2 ^ 21 }
    requires level { unsigned_abs level ≤ 7 }
    ensures value { result ≡ square (target -ℤ (pos d *ℤ level)) }
    ensures bound { result ≤ 2 ^ 62 + 2 ^ 55 }
{
    squared(distance(d, target, level))
}

// At most what each other level costs more than the nearest one, g from the target: two levels are 2d apart, and
// (2d - g)^2 is g^2 + 4d(d - g).
pub(crate) fn margin_of_lattice(d: u16, target: i64, level: i8) -> u64
    requires target { unsigned_abs target ≤ 2 ^ 31 + 2 ^ 21 }
    requires level { unsigned_abs level ≤ 7 }
    ensures { result ≡ 4 * d * (d - gap target d level) }
{
    4 * u64::from(d) * u64::from(d).saturating_sub(distance(d, target, level))
}

// How far a level, times the diagonal, is from the target.
fn distance(d: u16, target: i64, level: i8) -> u64
    requires target { unsigned_abs target ≤ 2 ^ 31 + 2 ^ 21 }
    requires level { unsigned_abs level ≤ 7 }
    ensures value { result ≡ gap target d level }
    ensures bound { result ≤ 2 ^ 31 + 2 ^ 22 }
{
    (target - stretched(d, level)).unsigned_abs()
}

// The square of a number.
fn squared(size: u64) -> u64
    requires { size ≤ 2 ^ 31 + 2 ^ 22 }
    ensures value { result ≡ size * size }
    ensures bound { result ≤ 2 ^ 62 + 2 ^ 55 }
{
    size * size
}
