//! The distance of a vector from what was received.
ghost use Rattle.std.specs.Prelude.{◌≡◌, ◌^◌, ◌<◌, length};
ghost use Rattle.std.specs.List.{All};
ghost use Rattle.ht_metric.specs.Distance.{distance_of, IsInRange};

use crate::system::System;
use crate::vector::Vector;

/// The sum over the rows k of the squared length of `y_k - d_k x_k - r_kl x_l - ..` over the streams l behind k.
///
/// The parts of the points are from -7 to 7. Samples and channels may be as large as their types allow:
/// the sum is exact, and below 2^66.
pub fn distance(system: &System, vector: &Vector) -> u128
    requires streams { length vector.now ≡ length system.now }
    requires levels { All IsInRange vector.now }
    ensures value { result ≡ distance_of system.now vector.now }
    ensures bound { result < 2 ^ 66 }
{
    system.distance(vector.points())
}
