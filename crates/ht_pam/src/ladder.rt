//! The levels of one coordinate.
ghost use Rattle.std.specs.Prelude.{◌≡◌, ◌⊎◌, ◌<◌, ◌≤◌, ◌^◌, ◌==◌, ◌&&◌, unsigned_abs, IsTrue, ◌↔◌};
ghost use Rattle.ht_pam.specs.Ladders.{IsLadder, level as level_of, has};
ghost use Rattle.std.specs.Int.{bit_at};
ghost use Rattle.std.specs.Ordering.{int_eq};

use std::marker::Model;

/// The levels of one coordinate of a constellation, and which of them are allowed.
///
/// A ladder of 2, 4 or 8 levels has the odd numbers from -1 to 1, -3 to 3 or -7 to 7. A ladder of one level has 0.
#[derive(Clone, Copy, Debug, PartialEq, Eq)]
pub struct Ladder {
    size: u8,
    mask: u8,
}

impl Model for Ladder {
    ghost use Rattle.ht_pam.specs.Ladders.{Rungs, IsLadder};

    ghost Value = { Rungs };

    ghost view = { λ l. record { size = l.size; mask = l.mask } };

    ghost invariant = { λ l. IsLadder (record { size = l.size; mask = l.mask }) };

    ghost inverse = { λ v. record { size = v.size; mask = v.mask } };
}

impl Ladder {
    /// The ladder of `size` levels, 1, 2, 4 or 8, that allows level `2 * j - (size - 1)` where bit j of `mask` is set.
    /// At least one of the lowest `size` bits is set, and no other bit.
    pub fn of(size: u8, mask: u8) -> Ladder
        requires size { (size ≡ 1) ⊎ (size ≡ 2) ⊎ (size ≡ 4) ⊎ (size ≡ 8) }
        requires some { 0 < mask }
        requires within { mask < 2 ^ size }
        ensures { result ≡ record { size = size; mask = mask } }
    {
        Ladder { size, mask }
    }

    /// Whether the ladder allows the level.
    pub fn has(&self, level: i8) -> bool
        ensures has { result ≡ has self.now level }
        ensures ladder { IsLadder self.now }
    {
        let (size, mask) = self.parts();
        for j in 0..size {
            if is_at(size, mask, j, level) {
                return true;
            }
        }
        false
    }

    // Whether both ladders have the same levels, and allow the same ones.
    pub(crate) fn same(&self, other: &Ladder) -> bool
        ensures { IsTrue result ↔ (self.now ≡ other.now) }
    {
        (self.size == other.size) & (self.mask == other.mask)
    }

    // How many levels there are, and the mask of the allowed ones.
    pub(crate) fn parts(&self) -> (u32, u32)
        ensures size { result.0 ≡ self.now.size }
        ensures mask { result.1 ≡ self.now.mask }
        ensures ladder { IsLadder self.now }
    {
        (u32::from(self.size), u32::from(self.mask))
    }
}

// Whether level j is allowed and is the one that is asked for.
fn is_at(size: u32, mask: u32, j: u32, level: i8) -> bool
    requires size { size ≤ 8 }
    requires within { j < size }
    ensures { result ≡ (bit_at mask j == 1 && int_eq (level_of size j) level) }
{
    (mask >> j) & 1 == 1 && level_at(size, j) == level
}

// Level j of a ladder of `size` levels.
pub(crate) fn level_at(size: u32, j: u32) -> i8
    requires size { size ≤ 8 }
    requires within { j < size }
    ensures value { result ≡ level_of size j }
    ensures bound { unsigned_abs result ≤ 7 }
{
    (2 * j as i32 - (size as i32 - 1)) as i8
}
