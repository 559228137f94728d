//! Labels and points, and pilots.
ghost use Rattle.std.specs.Prelude.{◌≡◌, ◌≢◌, ◌⊎◌, ◌↔◌, ◌^◌, ◌<◌, ◌≤◌, ℕ, length, slice_index_or, pos, true, IsTrue, None, Some, Ok, is_some};
ghost use Rattle.ht_rate.specs.Rates.{pilots_of, rate_of, streams_of};
ghost use Rattle.ht_rate.specs.declared.kinds.Modulation.{Modulation as ModulationView};
ghost use Rattle.ht_rate.specs.declared.rates.Rate.{Rate as RateView};
ghost use Rattle.ht_map.specs.Gray.{label_of};
ghost use Rattle.ht_pilot.specs.Pilots.{pilot_of};
ghost use Rattle.ht_library.specs.Mapped.{AreLabels, AreLabelsBelow, ArePointsBelow, ArePointsOn, modulation_at};
ghost use Rattle.ht_rate.specs.Schemes.{bits_of};

use crate::fault::{BAD_LENGTH, DONE, NO_LABEL, NO_MODULATION, NO_POINT, NO_RATE, NO_STREAM};
use ht_map::{label, point};
use ht_pam::Point;
use ht_pilot::pilot;
use ht_rate::{Modulation, Rate};

// The modulation whose labels have this number of bits.
fn modulation_of(bits: u8) -> Option<Modulation>
    ensures { result ≡ modulation_at bits }
{
    match bits {
        1 => Some(Modulation::Bpsk),
        2 => Some(Modulation::Qpsk),
        4 => Some(Modulation::Qam16),
        6 => Some(Modulation::Qam64),
        _ => None,
    }
}

// The number of labels of a modulation.
fn label_count(modulation: Modulation) -> u8
    ensures { result ≡ 2 ^ bits_of modulation }
{
    match modulation {
        Modulation::Bpsk => 2,
        Modulation::Qpsk => 4,
        Modulation::Qam16 => 16,
        Modulation::Qam64 => 64,
    }
}

// Whether all of these are labels of a modulation.
fn are_labels(modulation: Modulation, labels: &[u8]) -> bool
    ensures { IsTrue result ↔ AreLabels modulation labels.now }
{
    let count = label_count(modulation);
    for at in 0..labels.len() {
        if labels[at] >= count {
            return false;
        }
    }
    true
}

fn fill_points(modulation: Modulation, labels: &[u8], points: &mut [Point])
    requires labels { AreLabels modulation labels.now }
    requires each { length points.old ≡ length labels.now }
    ensures length { length points.new ≡ length points.old }
    ensures value { ArePointsBelow (length points.new) modulation labels.now points.new }
{
    for at in 0..labels.len() {
        points[at] = point(modulation, labels[at]);
    }
}

/// The points of labels of 1, 2, 4 or 6 bits, the first bit of a label the most significant one (clause 20.3.11.9).
#[unsafe(no_mangle)]
pub extern "C" fn mizgaure_points(bits: u8, labels: &[u8], points: &mut [Point]) -> u32
    ensures no_modulation { (result ≡ 9) ↔ (modulation_at bits ≡ None) }
    ensures bad_length { (result ≡ 5) ↔ ((modulation_at bits ≢ None) × (length points.old ≢ length labels.now)) }
    ensures no_label { (m : ModulationView) → modulation_at bits ≡ Some m → length points.old ≡ length labels.now
        → (result ≡ 10) ↔ (AreLabels m labels.now → ⊥) }
    ensures fault { (result ≡ 0) ⊎ (result ≡ 5) ⊎ (result ≡ 9) ⊎ (result ≡ 10) }
    ensures kept { (result ≡ 0 → ⊥) → points.new ≡ points.old }
    ensures length { length points.new ≡ length points.old }
    ensures value { result ≡ 0 → (m : ModulationView) → modulation_at bits ≡ Some m → ArePointsBelow (length points.new) m labels.now points.new }
{
    let Some(modulation) = modulation_of(bits) else {
        return NO_MODULATION;
    };
    if points.len() != labels.len() {
        return BAD_LENGTH;
    }
    if !are_labels(modulation, labels) {
        return NO_LABEL;
    }
    fill_points(modulation, labels, points);
    DONE
}

// Whether all of these points are on the constellation.
fn are_points(modulation: Modulation, points: &[Point]) -> bool
    ensures { IsTrue result ↔ ArePointsOn modulation points.now }
{
    for at in 0..points.len() {
        if label(modulation, points[at]).is_none() {
            return false;
        }
    }
    true
}

// The label of a point of the constellation.
fn label_on(modulation: Modulation, point: Point) -> u8
    requires { is_some (label_of modulation point) ≡ true }
    ensures { label_of modulation point ≡ Some result }
{
    match label(modulation, point) {
        Some(found) => found,
        None => unreachable!(),
    }
}

fn fill_labels(modulation: Modulation, points: &[Point], labels: &mut [u8])
    requires points { ArePointsOn modulation points.now }
    requires each { length labels.old ≡ length points.now }
    ensures length { length labels.new ≡ length labels.old }
    ensures value { AreLabelsBelow (length labels.new) modulation points.now labels.new }
{
    for at in 0..points.len() {
        labels[at] = label_on(modulation, points[at]);
    }
}

/// The labels of 1, 2, 4 or 6 bits of points (clause 20.3.11.9 backwards).
#[unsafe(no_mangle)]
pub extern "C" fn mizgaure_labels(bits: u8, points: &[Point], labels: &mut [u8]) -> u32
    ensures no_modulation { (result ≡ 9) ↔ (modulation_at bits ≡ None) }
    ensures bad_length { (result ≡ 5) ↔ ((modulation_at bits ≢ None) × (length labels.old ≢ length points.now)) }
    ensures no_point { (m : ModulationView) → modulation_at bits ≡ Some m → length labels.old ≡ length points.now
        → (result ≡ 11) ↔ (ArePointsOn m points.now → ⊥) }
    ensures fault { (result ≡ 0) ⊎ (result ≡ 5) ⊎ (result ≡ 9) ⊎ (result ≡ 11) }
    ensures kept { (result ≡ 0 → ⊥) → labels.new ≡ labels.old }
    ensures length { length labels.new ≡ length labels.old }
    ensures value { result ≡ 0 → (m : ModulationView) → modulation_at bits ≡ Some m → AreLabelsBelow (length labels.new) m points.now labels.new }
{
    let Some(modulation) = modulation_of(bits) else {
        return NO_MODULATION;
    };
    if labels.len() != points.len() {
        return BAD_LENGTH;
    }
    if !are_points(modulation, points) {
        return NO_POINT;
    }
    fill_labels(modulation, points, labels);
    DONE
}

// Writes the values of the pilots of a symbol on a stream.
fn fill_pilots(rate: &Rate, symbol: u32, stream: u8, values: &mut [i8])
    requires stream { (1 ≤ stream) × (stream ≤ streams_of rate.now) }
    requires all { length values.old ≡ pilots_of rate.now }
    ensures length { length values.new ≡ length values.old }
    ensures value { (k : ℕ) → k < length values.new → slice_index_or values.new k (pos 0) ≡ pilot_of rate.now symbol k stream }
{
    for k in 0..rate.pilots() {
        values[usize::from(k)] = pilot(rate, symbol, k, stream);
    }
}

/// The values of the N_SP pilots of a symbol on a stream, each 1 or -1 (clause 20.3.11.10). Symbols count from 0 and streams
/// from 1.
#[unsafe(no_mangle)]
pub extern "C" fn mizgaure_pilots(
    bandwidth: u8,
    mcs: u8,
    symbol: u32,
    stream: u8,
    values: &mut [i8],
) -> u32
    ensures no_rate { (result ≡ 2) ↔ ((1 < bandwidth) ⊎ (31 < mcs)) }
    ensures no_stream { (rate : RateView) → rate_of bandwidth mcs ≡ Ok rate → (result ≡ 6) ↔ ((stream < 1) ⊎ (streams_of rate < stream)) }
    ensures done { (rate : RateView) → rate_of bandwidth mcs ≡ Ok rate
        → (result ≡ 0) ↔ ((1 ≤ stream) × (stream ≤ streams_of rate) × (length values.old ≡ pilots_of rate)) }
    ensures fault { (result ≡ 0) ⊎ (result ≡ 2) ⊎ (result ≡ 5) ⊎ (result ≡ 6) }
    ensures kept { (result ≡ 0 → ⊥) → values.new ≡ values.old }
    ensures length { length values.new ≡ length values.old }
    ensures value { result ≡ 0 → (rate : RateView) → rate_of bandwidth mcs ≡ Ok rate
        → (k : ℕ) → k < length values.new → slice_index_or values.new k (pos 0) ≡ pilot_of rate symbol k stream }
{
    let Ok(rate) = Rate::of(bandwidth, mcs) else {
        return NO_RATE;
    };
    if stream < 1 || stream > rate.streams() {
        return NO_STREAM;
    }
    if values.len() != usize::from(rate.pilots()) {
        return BAD_LENGTH;
    }
    fill_pilots(&rate, symbol, stream, values);
    DONE
}
