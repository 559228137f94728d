//! A point for each stream.
ghost use Rattle.std.specs.Prelude.{◌≡◌, ◌+◌, ◌-◌, ◌<◌, ◌≤◌, ◌++◌, [], ◌∷◌, length, take, drop, replicate, slice_index_or};
ghost use Rattle.ht_metric.specs.Vectors.{before, no_point};

use ht_pam::Point;
use std::marker::Model;

/// The points of up to four spatial streams, the first stream's first.
#[derive(Clone, Copy, Debug, PartialEq, Eq)]
pub struct Vector {
    points: [Point; 4],
    // A whole word, so that a vector is two of them and has no padding to be copied.
    len: usize,
}

impl Model for Vector {
    ghost use Rattle.std.specs.Prelude.{List};
    ghost use Rattle.ht_pam.specs.declared.point.Point.{Point};

    ghost Value = { List Point };

    ghost use Rattle.std.specs.Prelude.{take};
    ghost use Rattle.ht_metric.specs.Vectors.{IsPaddedVector};
    ghost use Rattle.ht_metric.specs.Shown.{vector_fields, vector_fields-shown};

    ghost view = { λ v. take v.len v.points };

    ghost invariant = { λ v. IsPaddedVector v.len v.points };

    ghost inverse = { vector_fields };

    ghost inverse_ok = { vector_fields-shown };
}

impl Vector {
    /// The vector of no streams.
    pub fn new() -> Vector
        ensures { result ≡ [] }
    {
        Vector {
            points: [Point { i: 0, q: 0 }; 4],
            len: 0,
        }
    }

    /// The vector of `n` streams, at most 4, whose points come first in the array. The places that `n` streams don't use
    /// are zero.
    pub fn of(n: u8, points: [Point; 4]) -> Vector
        requires few { n ≤ 4 }
        requires unused { drop n points ≡ replicate (4 - n) no_point }
        ensures { result ≡ take n points }
    {
        Vector {
            points,
            len: usize::from(n),
        }
    }

    /// Adds the point of one more stream behind the others, of which there are at most three.
    pub fn push(&mut self, point: Point)
        requires { length self.old < 4 }
        ensures { self.new ≡ self.old ++ point ∷ [] }
    {
        self.points[self.len] = point;
        self.len += 1;
    }

    /// The number of streams, 0 to 4.
    pub fn len(&self) -> u8
        ensures number { result ≡ length self.now }
        ensures few { result ≤ 4 }
    {
        self.len as u8
    }

    /// The point of a stream, the first one being stream 1.
    pub fn point(&self, stream: u8) -> Point
        requires first { 1 ≤ stream }
        requires last { stream ≤ length self.now }
        ensures { result ≡ slice_index_or self.now (stream - 1) no_point }
    {
        self.points[usize::from(stream) - 1]
    }

    /// Whether this vector comes before the other one, which has the same number of points: at the lowest stream where
    /// they differ it has the lesser I, or the same I and the lesser Q.
    pub fn before(&self, other: &Vector) -> bool
        requires { length self.now ≡ length other.now }
        ensures { result ≡ before self.now other.now }
    {
        self.points() < other.points()
    }

    // The points, as a slice.
    pub(crate) fn points(&self) -> &[Point]
        ensures { result.now ≡ self.now }
    {
        &self.points[..self.len]
    }
}
