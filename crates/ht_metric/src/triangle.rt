//! The channel of a subcarrier in triangular form.
ghost use Rattle.std.specs.Prelude.{◌≡◌, ◌+◌, ◌-◌, ◌^◌, ◌<◌, ◌≤◌, length, drop, replicate, slice_index_or, IsTrue, ◌↔◌};
ghost use Rattle.std.specs.List.{All};
ghost use Rattle.ht_metric.specs.Distance.{distance_of, IsInRange};
ghost use Rattle.ht_metric.specs.Rows.{rows_of, legs_of, entries_of, no_leg, no_tap};

use crate::rows::sum_rows;
use crate::sample::Sample;
use crate::tap::Tap;
use ht_pam::Point;
use std::marker::Model;

/// The upper triangular channel of one to four spatial streams, with a real diagonal.
///
/// Row k has the diagonal d_k, from 0 to 65535, and the entries r_kl for the streams l behind k.
/// Streams are counted from 1.
#[derive(Clone, Copy, Debug, PartialEq, Eq)]
pub struct Triangle {
    streams: u8,
    diagonal: [u16; 4],
    above: [Tap; 6],
}

impl Model for Triangle {
    ghost use Rattle.std.specs.Prelude.{List};
    ghost use Rattle.ht_metric.specs.Rows.{Leg};

    ghost Value = { List Leg };

    ghost use Rattle.ht_metric.specs.Rows.{legs_of, IsTriangle};
    ghost use Rattle.ht_metric.specs.Shown.{triangle_fields, triangle_fields-shown};

    ghost view = { λ t. legs_of t.streams t.diagonal t.above };

    ghost invariant = { λ t. IsTriangle t.streams t.diagonal t.above };

    ghost inverse = { triangle_fields };

    ghost inverse_ok = { triangle_fields-shown };
}

impl Triangle {
    /// The triangle of `n` streams, 1 to 4. `above` has r_12, r_13 and so on, row by row from its start.
    ///
    /// The places that `n` streams don't use are zero.
    pub fn new(n: u8, diagonal: [u16; 4], above: [Tap; 6]) -> Triangle
        requires some { 1 ≤ n }
        requires few { n ≤ 4 }
        requires unused_diagonals { drop n diagonal ≡ replicate (4 - n) 0 }
        requires unused_entries { drop (entries_of n) above ≡ replicate (6 - entries_of n) no_tap }
        ensures { result ≡ legs_of n diagonal above }
    {
        Triangle {
            streams: n,
            diagonal,
            above,
        }
    }

    /// The number of streams, 1 to 4.
    pub fn streams(&self) -> u8
        ensures number { result ≡ length self.now }
        ensures some { 1 ≤ result }
        ensures few { result ≤ 4 }
    {
        self.streams
    }

    /// The diagonal d_k, for `k` from 1 to the number of streams.
    pub fn diagonal(&self, k: u8) -> u16
        requires first { 1 ≤ k }
        requires last { k ≤ length self.now }
        ensures { result ≡ (slice_index_or self.now (k - 1) no_leg).diagonal }
    {
        self.diagonal[usize::from(k) - 1]
    }

    /// The entry r_kl, for `k` from 1 and `l` from `k + 1` to the number of streams.
    pub fn above(&self, k: u8, l: u8) -> Tap
        requires first { 1 ≤ k }
        requires right { k < l }
        requires last { l ≤ length self.now }
        ensures { result ≡ slice_index_or (slice_index_or self.now (k - 1) no_leg).right (l - k - 1) no_tap }
    {
        self.above[row_start(self.streams, k) + usize::from(l - k) - 1]
    }

    /// Whether both triangles have the same rows, as `==` says too.
    #[inline]
    pub fn same(&self, other: &Triangle) -> bool
        ensures { IsTrue result ↔ (self.now ≡ other.now) }
    {
        let mut same = self.streams == other.streams;
        for k in 0..4 {
            same = same & (self.diagonal[k] == other.diagonal[k]);
        }
        for j in 0..6 {
            same = same & self.above[j].same(&other.above[j]);
        }
        same
    }

    // The sum of the squared lengths of the rows, with what was received on them.
    pub(crate) fn distance(&self, y: &[Sample; 4], vector: &[Point]) -> u128
        requires streams { length vector.now ≡ length self.now }
        requires levels { All IsInRange vector.now }
        ensures value { result ≡ distance_of (rows_of self.now y.now) vector.now }
        ensures bound { result < 2 ^ 66 }
    {
        let count = usize::from(self.streams);
        sum_rows(count, &self.diagonal, &self.above, y, vector)
    }
}

// Where the entries of row k begin in a triangle of `streams` streams.
fn row_start(streams: u8, k: u8) -> usize
    requires first { 1 ≤ k }
    requires last { k ≤ streams }
    requires few { streams ≤ 4 }
    ensures { result + entries_of (streams - (k - 1)) ≡ entries_of streams }
{
    let above = usize::from(k) - 1;
    (2 * usize::from(streams) - usize::from(k)) * above / 2
}
