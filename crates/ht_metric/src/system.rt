//! A triangle with what was received.
ghost use Rattle.std.specs.Prelude.{◌≡◌, ◌-◌, ◌^◌, ◌<◌, ◌≤◌, length, drop, replicate, slice_index_or, IsTrue, ◌↔◌};
ghost use Rattle.std.specs.List.{All};
ghost use Rattle.ht_metric.specs.Distance.{distance_of, IsInRange};
ghost use Rattle.ht_metric.specs.Arrays.{legs};
ghost use Rattle.ht_metric.specs.Rows.{rows_of, no_row, no_tap, no_sample};

use crate::sample::Sample;
use crate::tap::Tap;
use crate::triangle::Triangle;
use ht_pam::Point;
use std::marker::Model;

/// The triangular channel of a subcarrier and the sample that was received on each row.
#[derive(Clone, Copy, Debug, PartialEq, Eq)]
pub struct System {
    triangle: Triangle,
    y: [Sample; 4],
}

impl Model for System {
    ghost use Rattle.std.specs.Prelude.{List};
    ghost use Rattle.ht_metric.specs.Rows.{Row};

    ghost Value = { List Row };

    ghost use Rattle.ht_metric.specs.Rows.{rows_of, IsSampled};
    ghost use Rattle.ht_metric.specs.Shown.{system_fields, system_fields-shown};

    ghost view = { λ s. rows_of s.triangle s.y };

    ghost invariant = { λ s. IsSampled s.triangle s.y };

    ghost inverse = { system_fields };

    ghost inverse_ok = { system_fields-shown };
}

impl System {
    /// The system of a triangle and the samples of its rows, the first row's first.
    ///
    /// The samples behind the last row are zero.
    pub fn new(triangle: Triangle, y: [Sample; 4]) -> System
        requires unused { drop (length triangle) y ≡ replicate (4 - length triangle) no_sample }
        ensures { result ≡ rows_of triangle y }
    {
        System { triangle, y }
    }

    /// The triangle without what was received.
    #[inline]
    pub fn triangle(&self) -> &Triangle
        ensures { result.now ≡ legs self.now }
    {
        &self.triangle
    }

    /// The number of streams, 1 to 4.
    pub fn streams(&self) -> u8
        ensures number { result ≡ length self.now }
        ensures some { 1 ≤ result }
        ensures few { result ≤ 4 }
    {
        self.triangle.streams()
    }

    /// The diagonal d_k, for `k` from 1 to the number of streams.
    pub fn diagonal(&self, k: u8) -> u16
        requires first { 1 ≤ k }
        requires last { k ≤ length self.now }
        ensures { result ≡ (slice_index_or self.now (k - 1) no_row).diagonal }
    {
        self.triangle.diagonal(k)
    }

    /// The entry r_kl, for `k` from 1 and `l` from `k + 1` to the number of streams.
    pub fn above(&self, k: u8, l: u8) -> Tap
        requires first { 1 ≤ k }
        requires right { k < l }
        requires last { l ≤ length self.now }
        ensures { result ≡ slice_index_or (slice_index_or self.now (k - 1) no_row).right (l - k - 1) no_tap }
    {
        self.triangle.above(k, l)
    }

    /// What was received on row `k`, from 1 to the number of streams.
    pub fn sample(&self, k: u8) -> Sample
        requires first { 1 ≤ k }
        requires last { k ≤ length self.now }
        ensures { result ≡ (slice_index_or self.now (k - 1) no_row).sample }
    {
        self.y[usize::from(k) - 1]
    }

    // Whether both systems have the same rows, as `==` says too.
    pub(crate) fn same(&self, other: &System) -> bool
        ensures { IsTrue result ↔ (self.now ≡ other.now) }
    {
        let mut same = self.triangle.same(&other.triangle);
        for k in 0..4 {
            same = same & self.y[k].same(&other.y[k]);
        }
        same
    }

    // The sum of the squared lengths of the rows.
    pub(crate) fn distance(&self, vector: &[Point]) -> u128
        requires streams { length vector.now ≡ length self.now }
        requires levels { All IsInRange vector.now }
        ensures value { result ≡ distance_of self.now vector.now }
        ensures bound { result < 2 ^ 66 }
    {
        self.triangle.distance(&self.y, vector)
    }
}
