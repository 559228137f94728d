//! The first stream in closed form.
ghost use Rattle.std.specs.Prelude.{◌≡◌, ◌<◌, ◌≤◌, ◌+◌, ◌^◌, length, not, unsigned_abs};
ghost use Rattle.ht_rate.specs.Schemes.{bits_of};
ghost use Rattle.ht_map.specs.Gray.{label_bit, point_of};
ghost use Rattle.ht_sphere.specs.Coordinates.{first_of};
ghost use Rattle.ht_weigh.specs.Leasts.{place_of, IsOf, IsLowered};
ghost use Rattle.ht_weigh.specs.Walks.{half_cost, IsAcross, IsNamed, TellsOthers};

use crate::leasts::{half, lower};
use crate::streams::is_one;
use ht_pam::{Axes, Point};
use ht_rate::Modulation;
use ht_sphere::remainder::{Remainder, cost};

// The nearest levels with another bit: a table for one, two and three bits that name a level, with a row for each of these bits,
// and in it a level for each name. Of the levels named by 000, 001, 011, 010, 110, 111, 101 and 100, from -7 to 7, that is
// nearest to a target which is nearest to it, and has the other bit, is always the same one: with the first bit -1 or 1, with the
// others one on the same side of 0.
const ACROSS: [[[i8; 8]; 3]; 3] = [
    [[1, -1, 0, 0, 0, 0, 0, 0], [0; 8], [0; 8]],
    [
        [1, 1, -1, -1, 0, 0, 0, 0],
        [-1, -3, 1, 3, 0, 0, 0, 0],
        [0; 8],
    ],
    [
        [1, 1, 1, 1, -1, -1, -1, -1],
        [-3, -3, -5, -5, 3, 3, 5, 5],
        [-5, -7, -3, -1, 5, 7, 3, 1],
    ],
];

// The nearest level with another bit, wherever the level of this name is the nearest of all. `count` bits name a level.
#[inline(always)]
fn across(count: u8, bit: u8, name: u8) -> i8
    requires some { 1 ≤ count }
    requires few { count ≤ 3 }
    requires bit { bit < count }
    requires name { name < 2 ^ count }
    ensures across { IsAcross count bit name result }
    ensures bound { unsigned_abs result ≤ 7 }
{
    ACROSS[usize::from(count - 1)][usize::from(bit)][usize::from(name)]
}

// The nearest point of the first stream: the nearest level of I and that of Q.
pub(crate) fn nearest_point(all: &Axes, left: &Remainder) -> Point
    requires re { unsigned_abs left.now.re ≤ 2 ^ 31 + 2 ^ 21 }
    requires im { unsigned_abs left.now.im ≤ 2 ^ 31 + 2 ^ 21 }
    ensures i { result.i ≡ first_of all.now.i left.now.re left.now.d }
    ensures q { result.q ≡ first_of all.now.q left.now.im left.now.d }
    ensures i_bound { unsigned_abs result.i ≤ 7 }
    ensures q_bound { unsigned_abs result.q ≤ 7 }
{
    let d = u32::from(left.d);
    Point {
        i: all.i.nearest(left.re, d),
        q: all.q.nearest(left.im, d),
    }
}

// What the nearest levels of the half with the other bit cost together, where the nearest point of all has this label, and its
// levels have these costs.
#[inline(always)]
pub(crate) fn other_cost(
    modulation: Modulation,
    left: &Remainder,
    label: u8,
    costs: (u64, u64),
    bit: u8,
) -> u64
    requires bit { bit < bits_of modulation }
    requires re { unsigned_abs left.now.re ≤ 2 ^ 31 + 2 ^ 21 }
    requires im { unsigned_abs left.now.im ≤ 2 ^ 31 + 2 ^ 21 }
    requires named { IsNamed modulation label left.now.re left.now.im left.now.d costs.0 costs.1 }
    requires i_bound { costs.0 ≤ 2 ^ 62 + 2 ^ 55 }
    requires q_bound { costs.1 ≤ 2 ^ 62 + 2 ^ 55 }
    ensures value { half_cost modulation bit (not (label_bit modulation label bit)) 0 left.now.re left.now.im left.now.d ≡ result }
    ensures bound { result ≤ 2 ^ 63 + 2 ^ 56 }
{
    let last = modulation.label_bits() / 2;
    let first = modulation.label_bits() - last;
    let levels = 1u8 << last;
    if bit < first {
        let level = across(first, bit, label / levels);
        costs.1 + cost(left.d, left.re, level)
    } else {
        let level = across(last, bit - first, label % levels);
        cost(left.d, left.im, level) + costs.0
    }
}

// Lowers the least distances of all halves of the first stream's points that don't have the bits of this label, which is that of
// the nearest point. Its levels have these costs, that of I first.
pub(crate) fn lower_others(
    modulation: Modulation,
    left: &Remainder,
    partial: u128,
    label: u8,
    costs: (u64, u64),
    leasts: &mut [u128],
)
    requires re { unsigned_abs left.now.re ≤ 2 ^ 31 + 2 ^ 21 }
    requires im { unsigned_abs left.now.im ≤ 2 ^ 31 + 2 ^ 21 }
    requires named { IsNamed modulation label left.now.re left.now.im left.now.d costs.0 costs.1 }
    requires i_bound { costs.0 ≤ 2 ^ 62 + 2 ^ 55 }
    requires q_bound { costs.1 ≤ 2 ^ 62 + 2 ^ 55 }
    requires small { partial + 2 ^ 65 < 2 ^ 128 }
    requires size { length leasts.old ≡ 48 }
    ensures { IsLowered (TellsOthers modulation label partial left.now.re left.now.im left.now.d (bits_of modulation)) leasts.old leasts.new }
{
    let bits = modulation.label_bits();
    for bit in 0..bits {
        let value = !is_one(label, bits - 1 - bit);
        let cost = other_cost(modulation, left, label, costs, bit);
        lower(
            leasts,
            half(usize::from(bit), value),
            partial + u128::from(cost),
        );
    }
}
