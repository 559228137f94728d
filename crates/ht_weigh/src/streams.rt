//! What the labels of chosen points tell of the halves.
ghost use Rattle.std.specs.Prelude.{◌≡◌, ◌<◌, ◌≤◌, ◌+◌, ◌-◌, ◌*◌, ◌==◌, length, drop, pos, slice_index_or};
ghost use Rattle.std.specs.Int.{bit_at};
ghost use Rattle.ht_rate.specs.Schemes.{bits_of};
ghost use Rattle.ht_weigh.specs.Leasts.{IsLowered};
ghost use Rattle.ht_weigh.specs.Walks.{TellsLabel, TellsStream, TellsBehind};

use crate::leasts::{half, lower};
use ht_map::label;
use ht_pam::Point;
use ht_rate::Modulation;

// Whether a bit of a label is 1, counted from the last one.
pub(crate) fn is_one(label: u8, k: u8) -> bool
    requires { k < 8 }
    ensures { result ≡ (bit_at label k == 1) }
{
    (label >> k) & 1 == 1
}

// The point of the stream behind k others.
fn point(levels: &[i8], k: u8) -> Point
    requires { 2 * k + 1 < length levels.now }
    ensures i { result.i ≡ slice_index_or levels.now (2 * k) (pos 0) }
    ensures q { result.q ≡ slice_index_or levels.now (2 * k + 1) (pos 0) }
{
    let place = 2 * usize::from(k);
    Point {
        i: levels[place],
        q: levels[place + 1],
    }
}

// Lowers the least distances of the halves that have a label on a stream. `at` is how many bits the streams before it have.
pub(crate) fn lower_label(
    modulation: Modulation,
    label: u8,
    stream: u8,
    at: usize,
    distance: u128,
    leasts: &mut [u128],
)
    requires at { at ≡ (stream - 1) * bits_of modulation }
    requires few { at + bits_of modulation ≤ 24 }
    requires size { length leasts.old ≡ 48 }
    ensures { IsLowered (TellsLabel modulation label stream distance (bits_of modulation)) leasts.old leasts.new }
{
    let bits = modulation.label_bits();
    for e in 0..bits {
        let value = is_one(label, bits - 1 - e);
        lower(leasts, half(at + usize::from(e), value), distance);
    }
}

// Lowers those of the halves that have the chosen point of stream k + 1.
fn lower_stream(modulation: Modulation, k: u8, levels: &[i8], distance: u128, leasts: &mut [u128])
    requires first { 1 ≤ k }
    requires few { k < 4 }
    requires there { 2 * k + 2 ≤ length levels.now }
    requires size { length leasts.old ≡ 48 }
    ensures { IsLowered (TellsStream modulation (drop 2 levels.now) distance k) leasts.old leasts.new }
{
    let at = usize::from(k) * usize::from(modulation.label_bits());
    if let Some(label) = label(modulation, point(levels, k)) {
        lower_label(modulation, label, k + 1, at, distance, leasts);
    }
}

// Lowers those of all halves that have the chosen points of the streams behind the first one.
pub(crate) fn lower_streams(
    modulation: Modulation,
    streams: u8,
    levels: &[i8],
    distance: u128,
    leasts: &mut [u128],
)
    requires some { 1 ≤ streams }
    requires few { streams ≤ 4 }
    requires levels { length levels.now ≡ 2 * streams }
    requires size { length leasts.old ≡ 48 }
    ensures { IsLowered (TellsBehind modulation (drop 2 levels.now) distance streams) leasts.old leasts.new }
{
    for k in 1..streams {
        lower_stream(modulation, k, levels, distance, leasts);
    }
}
