//! How much more the other levels of a coordinate cost than its nearest one.
ghost use Rattle.std.specs.Prelude.{◌≡◌, ◌+◌, ◌^◌, ◌<◌, ◌≤◌, unsigned_abs};
ghost use Rattle.ht_pam.specs.Ladders.{IsLadder};
ghost use Rattle.ht_sphere.specs.Coordinates.{first_of, IsMargin};

use crate::remainder::{cost, margin_of_lattice};
use ht_pam::{Ladder, Zigzag};

/// The nearest level of a coordinate, the lower one at a tie. Each other one costs more by `margin`, or by more than that.
#[derive(Clone, Copy)]
pub(crate) struct Nearest {
    /// The level.
    pub level: i8,
    /// How much more each other level costs at least.
    pub margin: u64,
}

/// A look at the allowed levels of a coordinate. It takes no step.
pub(crate) trait Look {
    /// The nearest level to a target, and a margin.
    fn nearest(ladder: Ladder, target: i64, d: u16) -> Nearest
        requires target { unsigned_abs target ≤ 2 ^ 31 + 2 ^ 21 }
        requires ladder { IsLadder ladder }
        ensures level { result.level ≡ first_of ladder target d }
        ensures bound { unsigned_abs result.level ≤ 7 }
        ensures margin { IsMargin ladder target d result.level result.margin };
}

/// The look at the nearest level alone: others are at least twice the diagonal away from it, whichever are allowed.
pub(crate) struct AtOne;

impl Look for AtOne {
    #[inline(always)]
    fn nearest(ladder: Ladder, target: i64, d: u16) -> Nearest {
        let level = ladder.nearest(target, u32::from(d));
        Nearest {
            level,
            margin: margin_of_lattice(d, target, level),
        }
    }
}

/// The look at the second nearest level too. Where there is none, no margin is too large.
pub(crate) struct AtTwo;

impl Look for AtTwo {
    #[inline(always)]
    fn nearest(ladder: Ladder, target: i64, d: u16) -> Nearest {
        let walk = Zigzag::new(ladder, target, u32::from(d));
        let level = walk.first();
        let margin = match walk.second() {
            Some(second) => cost(d, target, second) - cost(d, target, level),
            None => u64::MAX,
        };
        Nearest { level, margin }
    }
}
