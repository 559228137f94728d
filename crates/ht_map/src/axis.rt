//! One axis of a constellation: its levels, and the bits that name them.
//!
//! An axis has 1, 2, 4 or 8 levels. The one of index n, counted from the lowest, is 2n + 1 - size, and the bits that
//! name it are the Gray code of its index, n ^ (n >> 1): those of neighbouring levels differ in one bit (clause
//! 20.3.11.9, with tables 18-8 to 18-11 of clause 18.3.5.8). So no table is looked up, and no branch depends on a level
//! but whether it is on the axis.
ghost use Rattle.std.specs.Prelude.{◌≡◌, ◌<◌, IfSome};
ghost use Rattle.ht_map.specs.Axes.{IsSize, axis_of, index_of};
ghost use Rattle.ht_map.specs.Gray.{bits_at, level_at};

/// The level that some bits name on an axis of `size` levels.
#[tactic(auto, using(crate::proofs::GrayCode::gray_code))]
pub(crate) fn level_of(bits: u8, size: u8) -> i8
    requires size { IsSize size }
    requires bits { bits < size }
    ensures { result ≡ level_at (axis_of size) bits }
{
    (2 * index_named(bits) + 1) as i8 - size as i8
}

/// The bits that name a level on an axis of `size` levels, or `None` where the level is off the axis.
#[tactic(auto, using(crate::proofs::GrayCode::gray_code))]
pub(crate) fn bits_naming(level: i8, size: u8) -> Option<u8>
    requires { IsSize size }
    ensures value { result ≡ bits_at (axis_of size) level }
    ensures bound { IfSome result (λ bits. bits < 8) }
{
    // The level is 2n above the lowest one. Where its distance is odd the rotation sets the top bit, and a level below
    // the lowest one wraps to a large distance: either way n is no index of the axis.
    let n = level.cast_unsigned().wrapping_add(size - 1).rotate_right(1);
    if n < size { Some(n ^ (n >> 1)) } else { None }
}

// The index of the level that some bits name: it has these bits as its Gray code.
#[tactic(auto, using(crate::proofs::GrayCode::gray_code))]
fn index_named(bits: u8) -> u8
    requires { bits < 8 }
    ensures value { result ≡ index_of bits }
    ensures bound { result < 8 }
{
    bits ^ (bits >> 1) ^ (bits >> 2)
}
