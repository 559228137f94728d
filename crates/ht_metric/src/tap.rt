//! An entry of a triangle.
ghost use Rattle.std.specs.Prelude.{◌≡◌, ◌≤◌, ◌*ℤ◌, unsigned_abs, IsTrue, ◌↔◌};
ghost use Rattle.ht_metric.specs.Distance.{times, IsInRange};

use crate::complex::Complex;
use ht_pam::Point;

/// An entry above the diagonal of the triangular channel: the gain from one stream to an earlier row.
#[repr(C)]
#[derive(Clone, Copy, Debug, Default, PartialEq, Eq)]
pub struct Tap {
    /// The real part.
    pub re: i16,
    /// The imaginary part.
    pub im: i16,
}

impl Tap {
    /// The entry times a point, whose parts are from -7 to 7. Both parts are within plus or minus 458752.
    pub fn times(self, point: Point) -> Complex
        requires { IsInRange point }
        ensures re { result.re ≡ (times self point).re }
        ensures im { result.im ≡ (times self point).im }
        ensures re_bound { unsigned_abs result.re ≤ 458752 }
        ensures im_bound { unsigned_abs result.im ≤ 458752 }
    {
        Complex {
            re: multiplied(self.re, point.i) - multiplied(self.im, point.q),
            im: multiplied(self.re, point.q) + multiplied(self.im, point.i),
        }
    }

    // Whether both entries have the same parts.
    pub(crate) fn same(&self, other: &Tap) -> bool
        ensures { IsTrue result ↔ (self.now ≡ other.now) }
    {
        (self.re == other.re) & (self.im == other.im)
    }
}

// A part of an entry times a level.
fn multiplied(part: i16, level: i8) -> i64
    requires { unsigned_abs level ≤ 7 }
    ensures value { result ≡ part *ℤ level }
    ensures bound { unsigned_abs result ≤ 229376 }
{
    i64::from(part) * i64::from(level)
}
