//! From levels to points.
ghost use Rattle.std.specs.Prelude.{◌≡◌, ◌≤◌, ◌*◌, ◌-◌, length, take, drop, replicate, pos, slice_index_or, ◌+◌, ◌<◌};
ghost use Rattle.ht_metric.specs.Vectors.{no_point};
ghost use Rattle.ht_sphere.specs.Coordinates.{points_from};

use ht_metric::Vector;
use ht_pam::Point;

const NO_POINT: Point = Point { i: 0, q: 0 };

// The vector of levels I_1, Q_1, I_2 and so on, put together as a whole.
#[inline(always)]
pub(crate) fn vector_of(streams: u8, levels: &[i8]) -> Vector
    requires some { 1 ≤ streams }
    requires few { streams ≤ 4 }
    requires size { length levels.now ≡ 2 * streams }
    ensures { result ≡ points_from levels.now }
{
    Vector::of(streams, points_of(streams, levels))
}

// The points of these levels, in an array whose other places are zero.
#[inline(always)]
fn points_of(streams: u8, levels: &[i8]) -> [Point; 4]
    requires some { 1 ≤ streams }
    requires few { streams ≤ 4 }
    requires size { length levels.now ≡ 2 * streams }
    ensures front { take streams result ≡ points_from levels.now }
    ensures unused { drop streams result ≡ replicate (4 - streams) no_point }
{
    match streams {
        1 => [point(levels, 0), NO_POINT, NO_POINT, NO_POINT],
        2 => [point(levels, 0), point(levels, 1), NO_POINT, NO_POINT],
        3 => [
            point(levels, 0),
            point(levels, 1),
            point(levels, 2),
            NO_POINT,
        ],
        _ => [
            point(levels, 0),
            point(levels, 1),
            point(levels, 2),
            point(levels, 3),
        ],
    }
}

// The point of the stream behind `k` others.
#[inline(always)]
fn point(levels: &[i8], k: usize) -> Point
    requires { 2 * k + 1 < length levels.now }
    ensures i { result.i ≡ slice_index_or levels.now (2 * k) (pos 0) }
    ensures q { result.q ≡ slice_index_or levels.now (2 * k + 1) (pos 0) }
{
    Point {
        i: levels[2 * k],
        q: levels[2 * k + 1],
    }
}
