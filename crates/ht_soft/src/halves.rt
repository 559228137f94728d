//! The vectors of a job of which one label bit has a given value.
ghost use Rattle.std.specs.Prelude.{◌≡◌, ◌⊎◌, ◌-◌, ◌^◌, ◌<◌, ◌≤◌, ◌&&◌, List, length, replicate, slice_index_or, slice_set};
ghost use Rattle.ht_rate.specs.Schemes.{bits_of};
ghost use Rattle.ht_pam.specs.Grids.{no_axes};
ghost use Rattle.ht_pam.specs.declared.point.Point.{Point};
ghost use Rattle.ht_map.specs.Constellation.{axes_of};
ghost use Rattle.ht_metric.specs.Vectors.{is_in};
ghost use Rattle.ht_soft.specs.Halves.{axis_named, cut_axis, half_axes, half_grid_of, half_of, has_bit};

use ht_metric::Job;
use ht_pam::{Axes, Grid, Ladder};
use ht_rate::Modulation;

// The levels of which a bit is 1: a row for one, two and three bits that name a level, with a mask for each of these bits. Bit
// n of a mask is that of level n, counted from 0 at the lowest.
const ONES: [[u8; 3]; 3] = [
    [0b10, 0, 0],
    [0b1100, 0b0110, 0],
    [0b1111_0000, 0b0011_1100, 0b0110_0110],
];

// Of the levels that `count` bits name, those whose bit `k` has this value, as a mask: bit n is set where level n, counted from
// 0 at the least one, is among them. `k` counts from 0 at the first bit, which is the most significant one.
fn mask(count: u8, k: u8, value: bool) -> u8
    requires few { count ≤ 3 }
    requires bit { k < count }
    ensures value { result ≡ (cut_axis (axis_named count) count k value).mask }
    ensures some { 0 < result }
    ensures within { result < 2 ^ length (axis_named count) }
{
    let ones = ONES[usize::from(count - 1)][usize::from(k)];
    if value {
        ones
    } else {
        !ones & (255 >> (8 - levels(count)))
    }
}

// How many levels `count` bits name: 2, 4 or 8.
#[tactic(auto, unfolding(crate::specs::Halves::axis_named))]
fn levels(count: u8) -> u8
    requires { (1 ≤ count) × (count ≤ 3) }
    ensures value { result ≡ length (axis_named count) }
    ensures size { (result ≡ 1) ⊎ (result ≡ 2) ⊎ (result ≡ 4) ⊎ (result ≡ 8) }
{
    match count {
        1 => 2,
        2 => 4,
        _ => 8,
    }
}

// The ladder of the levels whose bit `k` has this value.
fn cut(count: u8, k: u8, value: bool) -> Ladder
    requires few { count ≤ 3 }
    requires bit { k < count }
    ensures { result ≡ cut_axis (axis_named count) count k value }
{
    Ladder::of(levels(count), mask(count, k, value))
}

/// The points of a modulation whose label has this value at a bit, as a ladder for I and one for Q, of `all` points.
///
/// The first half of the bits, or the one bit of BPSK, names I, and the others Q, so one of the two ladders is whole.
pub fn half_axes(modulation: Modulation, all: Axes, bit: u8, value: bool) -> Axes
    requires all { all ≡ axes_of modulation }
    requires bit { bit < bits_of modulation }
    ensures { result ≡ half_axes modulation bit value }
{
    let last = modulation.label_bits() / 2;
    let first = modulation.label_bits() - last;
    if bit < first {
        Axes {
            i: cut(first, bit, value),
            q: all.q,
        }
    } else {
        Axes {
            i: all.i,
            q: cut(last, bit - first, value),
        }
    }
}

// The two ladders of a grid's stream, I and Q. Streams are counted from 1.
fn axes_at(grid: &Grid, stream: u8) -> Axes
    requires first { 1 ≤ stream }
    requires last { stream ≤ length grid.now }
    ensures { result ≡ slice_index_or grid.now (stream - 1) no_axes }
{
    Axes {
        i: grid.i_ladder(stream),
        q: grid.q_ladder(stream),
    }
}

// The two ladders of a stream in the grid that has `axes` on the stream `changed`, and else is this one.
fn axes_among(grid: &Grid, changed: u8, axes: &Axes, stream: u8) -> Axes
    requires changed_first { 1 ≤ changed }
    requires changed_last { changed ≤ length grid.now }
    requires first { 1 ≤ stream }
    requires last { stream ≤ length grid.now }
    ensures { result ≡ slice_index_or (slice_set grid.now (changed - 1) axes.now) (stream - 1) no_axes }
{
    if stream == changed {
        Axes {
            i: axes.i,
            q: axes.q,
        }
    } else {
        axes_at(grid, stream)
    }
}

// The grid with these ladders on one stream, and its own on the others.
fn changed(grid: &Grid, stream: u8, axes: &Axes) -> Grid
    requires first { 1 ≤ stream }
    requires last { stream ≤ length grid.now }
    ensures { result ≡ slice_set grid.now (stream - 1) axes.now }
{
    let first = axes_among(grid, stream, axes, 1);
    let mut changed = Grid::one(first.i, first.q);
    for done in 1..grid.streams() {
        let next = axes_among(grid, stream, axes, done + 1);
        changed = changed.and(next.i, next.q);
    }
    changed
}

/// The grid with the points alone on `stream` whose label has `value` at a bit: one of the two halves of a grid that a
/// label bit makes.
///
/// The grid is the full constellation of `modulation` on each stream. Streams are counted from 1, and bits of a label
/// from 0, which is the first and most significant one (IEEE Std 802.11-2012, clause 20.3.11.9).
pub fn half_grid(modulation: Modulation, grid: &Grid, stream: u8, bit: u8, value: bool) -> Grid
    requires full { grid.now ≡ replicate (length grid.now) (axes_of modulation) }
    requires first { 1 ≤ stream }
    requires last { stream ≤ length grid.now }
    requires bit { bit < bits_of modulation }
    ensures { result ≡ half_grid_of modulation stream bit value grid.now }
{
    let axes = half_axes(modulation, axes_at(grid, stream), bit, value);
    changed(grid, stream, &axes)
}

/// The job of this number with the vectors alone whose label on `stream` has `value` at a bit: one of the two halves of
/// a job's grid that a label bit makes.
///
/// The job's grid is the full constellation of `modulation` on each stream. Streams are counted from 1, and bits of a
/// label from 0, which is the first and most significant one (IEEE Std 802.11-2012, clause 20.3.11.9). Place and system
/// are the job's. Takes no memory.
#[tactic(auto, unfolding(crate::specs::Halves::half_of))]
pub fn half(modulation: Modulation, job: &Job, number: u64, stream: u8, bit: u8, value: bool) -> Job
    requires full { job.now.grid ≡ replicate (length job.now.grid) (axes_of modulation) }
    requires first { 1 ≤ stream }
    requires last { stream ≤ length job.now.grid }
    requires bit { bit < bits_of modulation }
    ensures half { result ≡ half_of modulation stream bit value number job.now }
    ensures vectors { (x : List Point) → is_in result.grid x ≡ (is_in job.now.grid x && has_bit modulation stream bit value x) }
{
    let grid = half_grid(modulation, job.grid(), stream, bit, value);
    Job::new(number, job.place(), grid, *job.system())
}

// The grid with the points alone on `stream` whose label has `value` at a bit, of any grid. One without this stream stays as it
// is.
fn any_half_grid(
    modulation: Modulation,
    all: Axes,
    grid: &Grid,
    stream: u8,
    bit: u8,
    value: bool,
) -> Grid
    requires all { all ≡ axes_of modulation }
    requires first { 1 ≤ stream }
    requires bit { bit < bits_of modulation }
    ensures { result ≡ half_grid_of modulation stream bit value grid.now }
{
    if stream > grid.streams() {
        return *grid;
    }
    changed(grid, stream, &half_axes(modulation, all, bit, value))
}

/// The same of a job with any grid: on `stream` it has the points of the modulation whose label has `value` at a bit, and all else
/// is the job's, its number too. A job without this stream stays as it is. `all` has all points of the modulation.
#[tactic(auto, unfolding(crate::specs::Halves::half_of))]
pub fn half_of_any(
    modulation: Modulation,
    all: Axes,
    job: &Job,
    stream: u8,
    bit: u8,
    value: bool,
) -> Job
    requires all { all ≡ axes_of modulation }
    requires first { 1 ≤ stream }
    requires bit { bit < bits_of modulation }
    ensures { result ≡ half_of modulation stream bit value job.now.number job.now }
{
    let grid = any_half_grid(modulation, all, job.grid(), stream, bit, value);
    Job::new(job.number(), job.place(), grid, *job.system())
}
