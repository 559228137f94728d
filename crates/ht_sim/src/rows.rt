//! What a triangle makes of a vector.
ghost use Rattle.std.specs.Prelude.{◌≡◌, ◌+◌, ◌-◌, ◌≤◌, ◌<◌, ◌^◌, ◌*ℤ◌, pos, unsigned_abs, length, drop, slice_index_or, OnOk};
ghost use Rattle.ht_metric.specs.Distance.{combined, received, times};
ghost use Rattle.ht_metric.specs.Rows.{no_leg};
ghost use Rattle.ht_capture.specs.Contents.{AreSamples};
ghost use Rattle.ht_sim.specs.Channel.{mixed, row_mixed, sample_drawn};
ghost use Rattle.ht_sim.specs.Draws.{drawn, each, joined};

use crate::words::Words;
use ht_metric::{Sample, Tap, Triangle};
use ht_pam::Point;
use std::alloc::AllocError;

// A part of an entry times a level.
fn multiplied(part: i16, level: i8) -> i32
    ensures value { result ≡ part *ℤ level }
    ensures bound { unsigned_abs result ≤ 4194304 }
{
    i32::from(part) * i32::from(level)
}

/// A diagonal entry of a triangular channel times a level, I or Q of a point: where the channel puts that level before the
/// other streams and noise are added.
pub fn stretched(diagonal: u16, level: i8) -> i32
    ensures value { result ≡ pos diagonal *ℤ level }
    ensures bound { unsigned_abs result ≤ 8388480 }
{
    i32::from(diagonal) * i32::from(level)
}

// An entry times a point.
fn product(tap: Tap, point: Point) -> Sample
    ensures re { result.re ≡ (times tap point).re }
    ensures im { result.im ≡ (times tap point).im }
    ensures re_bound { unsigned_abs result.re ≤ 8388608 }
    ensures im_bound { unsigned_abs result.im ≤ 8388608 }
{
    Sample {
        re: multiplied(tap.re, point.i) - multiplied(tap.im, point.q),
        im: multiplied(tap.re, point.q) + multiplied(tap.im, point.i),
    }
}

// The sum of a row's entries times the points behind the row's own.
fn entries(triangle: &Triangle, row: u8, behind: &[Point]) -> Sample
    requires few { length triangle.now ≤ 4 }
    requires points { row + 1 + length behind.now ≡ length triangle.now }
    ensures re { result.re ≡ (combined (slice_index_or triangle.now row no_leg).right behind.now).re }
    ensures im { result.im ≡ (combined (slice_index_or triangle.now row no_leg).right behind.now).im }
    ensures re_bound { unsigned_abs result.re ≤ 25165824 }
    ensures im_bound { unsigned_abs result.im ≤ 25165824 }
{
    let mut total = Sample { re: 0, im: 0 };
    for k in 0..triangle.streams() - row - 1 {
        let part = product(triangle.above(row + 1, row + 2 + k), behind[usize::from(k)]);
        total = Sample {
            re: total.re + part.re,
            im: total.im + part.im,
        };
    }
    total
}

// What a row makes of a vector, without noise.
fn exact(triangle: &Triangle, row: u8, vector: &[Point]) -> Sample
    requires row { row < length triangle.now }
    requires few { length triangle.now ≤ 4 }
    requires points { length vector.now ≡ length triangle.now }
    ensures value { received result ≡ row_mixed (slice_index_or triangle.now row no_leg) (drop row vector.now) }
    ensures re_bound { unsigned_abs result.re ≤ 2 ^ 25 }
    ensures im_bound { unsigned_abs result.im ≤ 2 ^ 25 }
{
    let place = usize::from(row);
    let own = vector[place];
    let diagonal = triangle.diagonal(row + 1);
    let sum = entries(triangle, row, &vector[place + 1..]);
    Sample {
        re: stretched(diagonal, own.i) + sum.re,
        im: stretched(diagonal, own.q) + sum.im,
    }
}

/// Adds the samples of a subcarrier: what its triangle makes of the vector, row by row, with noise.
pub fn add_samples(
    words: &mut Words,
    noise: u16,
    triangle: &Triangle,
    vector: &[Point],
    samples: &mut Vec<Sample>,
) -> Result<(), AllocError>
    requires points { length vector.now ≡ length triangle.now }
    ensures added { OnOk result (drawn samples.new.items words.new
        ≡ joined samples.old.items (each (sample_drawn noise) (mixed triangle.now vector.now) words.old)) }
    ensures typed { AreSamples samples.old.items → OnOk result (AreSamples samples.new.items) }
{
    for row in 0..triangle.streams() {
        samples.push(words.sample(noise, exact(triangle, row, vector)))?;
    }
    Ok(())
}
