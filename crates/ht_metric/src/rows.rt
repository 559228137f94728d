//! The squared lengths of rows, computed without overflow.
ghost use Rattle.std.specs.Prelude.{◌≡◌, ◌+◌, ◌*◌, ◌^◌, ◌<◌, ◌≤◌, ◌-ℤ◌, ◌*ℤ◌, All, length, unsigned_abs, pos};
ghost use Rattle.ht_metric.specs.Distance.{combined, square, squared_length, residual, distance_of, IsInRange};
ghost use Rattle.ht_metric.specs.Rows.{rows_of, legs_of};

use crate::complex::Complex;
use crate::sample::Sample;
use crate::tap::Tap;
use ht_pam::Point;

// The sum of entries times points.
fn combine(taps: &[Tap], xs: &[Point]) -> Complex
    requires few { length taps.now ≤ 3 }
    requires enough { length taps.now ≤ length xs.now }
    requires levels { All IsInRange xs.now }
    ensures re { result.re ≡ (combined taps.now xs.now).re }
    ensures im { result.im ≡ (combined taps.now xs.now).im }
    ensures re_bound { unsigned_abs result.re ≤ 1376256 }
    ensures im_bound { unsigned_abs result.im ≤ 1376256 }
{
    let mut total = Complex { re: 0, im: 0 };
    for k in 0..taps.len() {
        let part = taps[k].times(xs[k]);
        total = Complex {
            re: total.re + part.re,
            im: total.im + part.im,
        };
    }
    total
}

// The square of a part.
fn squared(part: i64) -> u64
    requires { unsigned_abs part ≤ 2 ^ 31 + 2 ^ 21 }
    ensures value { result ≡ square part }
    ensures bound { result ≤ (2 ^ 31 + 2 ^ 21) * (2 ^ 31 + 2 ^ 21) }
{
    let size = part.unsigned_abs();
    size * size
}

/// A diagonal entry of a triangular channel times a level, I or Q of a point, from -7 to 7: where the channel puts that level
/// before the other streams and noise are added.
pub fn stretched(diagonal: u16, level: i8) -> i64
    requires { unsigned_abs level ≤ 7 }
    ensures value { result ≡ pos diagonal *ℤ level }
    ensures bound { unsigned_abs result ≤ 458745 }
{
    i64::from(diagonal) * i64::from(level)
}

// What is left of a part that was received.
fn remaining(part: i32, stretched: i64, combined: i64) -> i64
    requires stretched { unsigned_abs stretched ≤ 458745 }
    requires combined { unsigned_abs combined ≤ 1376256 }
    ensures value { result ≡ (part -ℤ stretched) -ℤ combined }
    ensures bound { unsigned_abs result ≤ 2 ^ 31 + 2 ^ 21 }
{
    let part = i64::from(part);
    part - stretched - combined
}

// The squared length of what is left of a row.
fn row_length(diagonal: u16, right: &[Tap], sample: Sample, x: Point, rest: &[Point]) -> u64
    requires few { length right.now ≤ 3 }
    requires enough { length right.now ≤ length rest.now }
    requires level { IsInRange x }
    requires levels { All IsInRange rest.now }
    ensures value { result ≡ squared_length (residual (record { diagonal = diagonal; right = right.now; sample = sample }) x rest.now) }
    ensures bound { result ≤ 2 * ((2 ^ 31 + 2 ^ 21) * (2 ^ 31 + 2 ^ 21)) }
{
    let sum = combine(right, rest);
    let re = remaining(sample.re, stretched(diagonal, x.i), sum.re);
    let im = remaining(sample.im, stretched(diagonal, x.q), sum.im);
    squared(re) + squared(im)
}

/// The sum of the squared lengths of the rows. The entries above the diagonal lie row by row.
pub(crate) fn sum_rows(
    count: usize,
    diagonal: &[u16; 4],
    above: &[Tap; 6],
    y: &[Sample; 4],
    vector: &[Point],
) -> u128
    requires few { count ≤ 4 }
    requires streams { length vector.now ≡ count }
    requires levels { All IsInRange vector.now }
    ensures value { result ≡ distance_of (rows_of (legs_of count diagonal.now above.now) y.now) vector.now }
    ensures bound { result < 2 ^ 66 }
{
    let mut total = 0u128;
    let mut from = 0usize;
    for k in 0..count {
        let width = count - 1 - k;
        let right = &above[from..from + width];
        let rest = &vector[k + 1..];
        total += u128::from(row_length(diagonal[k], right, y[k], vector[k], rest));
        from += width;
    }
    total
}
