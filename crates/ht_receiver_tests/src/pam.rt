//! Ladders, grids and the order of levels.
ghost use Rattle.std.specs.Prelude.{◌≡◌, ◌<◌};

use crate::equal::equal;
use ht_pam::{Grid, Ladder, Steps, Zigzag};
use std::marker::Brand;
use std::sync::ledger::{Blank, Ledger};

// The first five levels that come, and none where there are no more.
fn levels<L: Ledger>(ladder: Ladder, target: i32, d: u16, blank: Blank) -> [Option<i8>; 5]
    requires name { blank.name ≡ L.name }
    requires parts { blank.parts ≡ L.parts }
    requires some { 0 < blank.parts }
{
    let mut steps = Steps::<L>::new(blank);
    let mut zigzag = Zigzag::new(ladder, i64::from(target), u32::from(d));
    let mut levels = [None; 5];
    for level in levels.iter_mut() {
        *level = zigzag.next(&mut steps);
    }
    levels
}

#[test]
fn ties(rt: HostRuntime) {
    let all = Ladder::of(4, 15);
    for (ladder, target, d, [a, b, c, e]) in [
        (all, 0, 10, [-1, 1, -3, 3]),
        (all, 21, 10, [3, 1, -1, -3]),
        (all, 7, 0, [-3, -1, 1, 3]),
        (Ladder::of(8, 165), 24, 10, [3, 7, -3, -7]),
    ] {
        let found = levels::<Brand>(ladder, target, d, Blank::new(1));
        let wanted = [Some(a), Some(b), Some(c), Some(e), None];
        equal(&rt, (target, found), (target, wanted));
    }
}

// Ladders with a target and a diagonal, and the level that is nearest; and a level that a ladder has or hasn't.
#[test]
fn ladders(rt: HostRuntime) {
    for (ladder, (target, d, nearest), (level, has)) in [
        (Ladder::of(1, 1), (90, 10, 0), (0, true)),
        (Ladder::of(2, 1), (90, 10, -1), (1, false)),
        (Ladder::of(4, 15), (0, 10, -1), (-3, true)),
        (Ladder::of(4, 15), (21, 10, 3), (2, false)),
        (Ladder::of(8, 129), (24, 10, 7), (7, true)),
        (Ladder::of(8, 129), (24, 0, -7), (5, false)),
    ] {
        let found = (ladder.nearest(target, d), ladder.has(level));
        equal(&rt, (ladder, found), (ladder, (nearest, has)));
    }
}

#[test]
fn grids(rt: HostRuntime) {
    let (zero, ends) = (Ladder::of(1, 1), Ladder::of(8, 129));
    let one = Grid::one(ends, zero);
    let (grid, other) = (one.and(zero, ends), one.and(ends, zero));
    let found = (grid.streams(), grid.i_ladder(1), grid.q_ladder(1));
    equal(&rt, found, (2, ends, zero));
    let same = one.and(zero, ends);
    let is_same = (grid == same, grid.same(&same), grid.same(&other));
    equal(&rt, is_same, (true, true, false));
}
