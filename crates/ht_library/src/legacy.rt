//! Frames of clause 18.
ghost use Rattle.std.specs.Prelude.{◌≡◌, ◌⊎◌, ◌↔◌, ◌<◌, ◌≤◌, ℕ, length, pos, slice_index, slice_index_or, IsTrue, Some};
ghost use Rattle.ht_scramble.specs.Sequence.{IsSeed};
ghost use Rattle.ht_clause18.specs.Interleaver.{origin_of, place_of};
ghost use Rattle.ht_clause18.specs.Pilots.{pilot_of};
ghost use Rattle.ht_clause18.specs.Points.{sent_points};
ghost use Rattle.ht_clause18.specs.Rates.{coded_bits_of, rate_of};
ghost use Rattle.ht_clause18.specs.declared.rates.LegacyRate.{LegacyRate as LegacyRateView};
ghost use Rattle.ht_library.specs.Legacy.{HasLegacyPointsOf};

use crate::fault::{BAD_LENGTH, DONE, NO_MEMORY, NO_RATE, NO_SEED};
use ht_clause18::{
    LegacyFrame, LegacyRate, legacy_origin, legacy_pilot, legacy_place, legacy_transmit,
};
use ht_pam::Point;
use ht_scramble::Seed;
use std::alloc::Global;

// Whether the frame of a PSDU of so many octets has so many points.
#[tactic(auto, unfolding(ht_clause18::specs::Points::points_of))]
fn has_points(rate: LegacyRate, octets: usize, points: usize) -> bool
    ensures { IsTrue result ↔ HasLegacyPointsOf rate octets points }
{
    if octets < 1 || octets > 4095 {
        return false;
    }
    points == rate.symbols(octets as u16) as usize * 52
}

/// The points that are sent for a PSDU of 1 to 4095 octets, in the order symbol, subcarrier (clause 18.3.5). Rates are 0 to 7 in the
/// order of their megabits.
#[unsafe(no_mangle)]
pub extern "C" fn mizgaure_legacy_transmit(
    alloc: Global,
    rate: u8,
    seed: u8,
    octets: &[u8],
    points: &mut [Point],
) -> u32
    ensures no_rate { (result ≡ 2) ↔ (7 < rate) }
    ensures no_seed { (result ≡ 4) ↔ ((rate ≤ 7) × (IsSeed seed → ⊥)) }
    ensures bad_length { (r : LegacyRateView) → rate_of rate ≡ Some r → IsSeed seed
        → (result ≡ 5) ↔ (HasLegacyPointsOf r (length octets.now) (length points.old) → ⊥) }
    ensures fault { (result ≡ 0) ⊎ (result ≡ 1) ⊎ (result ≡ 2) ⊎ (result ≡ 4) ⊎ (result ≡ 5) }
    ensures kept { (result ≡ 0 → ⊥) → points.new ≡ points.old }
    ensures length { length points.new ≡ length points.old }
    ensures value { result ≡ 0 → (r : LegacyRateView) → rate_of rate ≡ Some r
        → points.new ≡ sent_points (record { rate = r; seed = seed; octets = octets.now }) }
{
    let Some(rate) = LegacyRate::of(rate) else {
        return NO_RATE;
    };
    let Some(seed) = Seed::new(seed) else {
        return NO_SEED;
    };
    if !has_points(rate, octets.len(), points.len()) {
        return BAD_LENGTH;
    }
    let Ok(octets) = Vec::from_slice(alloc, octets) else {
        return NO_MEMORY;
    };
    let Some(frame) = LegacyFrame::new(rate, seed, octets) else {
        return BAD_LENGTH;
    };
    let Ok(sent) = legacy_transmit(alloc, &frame) else {
        return NO_MEMORY;
    };
    points.copy_from_slice(&sent);
    DONE
}

// Writes the places of all bits of a symbol.
fn fill_places(rate: LegacyRate, places: &mut [u16])
    requires { length places.old ≡ coded_bits_of rate }
    ensures length { length places.new ≡ length places.old }
    ensures value { (k : ℕ) → k < length places.new → slice_index places.new k ≡ place_of rate k }
{
    for k in 0..rate.coded_bits() {
        places[usize::from(k)] = legacy_place(rate, k);
    }
}

// Writes the origins of all places of a symbol.
fn fill_origins(rate: LegacyRate, origins: &mut [u16])
    requires { length origins.old ≡ coded_bits_of rate }
    ensures length { length origins.new ≡ length origins.old }
    ensures value { (k : ℕ) → k < length origins.new → slice_index origins.new k ≡ origin_of rate k }
{
    for k in 0..rate.coded_bits() {
        origins[usize::from(k)] = legacy_origin(rate, k);
    }
}

/// The place of each of the N_CBPS bits of a symbol behind the interleaver of clause 18.3.5.7.
#[unsafe(no_mangle)]
pub extern "C" fn mizgaure_legacy_places(rate: u8, places: &mut [u16]) -> u32
    ensures no_rate { (result ≡ 2) ↔ (7 < rate) }
    ensures done { (r : LegacyRateView) → rate_of rate ≡ Some r → (result ≡ 0) ↔ (length places.old ≡ coded_bits_of r) }
    ensures fault { (result ≡ 0) ⊎ (result ≡ 2) ⊎ (result ≡ 5) }
    ensures kept { (result ≡ 0 → ⊥) → places.new ≡ places.old }
    ensures length { length places.new ≡ length places.old }
    ensures value { result ≡ 0 → (r : LegacyRateView) → rate_of rate ≡ Some r
        → (k : ℕ) → k < length places.new → slice_index places.new k ≡ place_of r k }
{
    let Some(rate) = LegacyRate::of(rate) else {
        return NO_RATE;
    };
    if places.len() != usize::from(rate.coded_bits()) {
        return BAD_LENGTH;
    }
    fill_places(rate, places);
    DONE
}

/// The bit that stands at each of the N_CBPS places of a symbol behind the interleaver of clause 18.3.5.7.
#[unsafe(no_mangle)]
pub extern "C" fn mizgaure_legacy_origins(rate: u8, origins: &mut [u16]) -> u32
    ensures no_rate { (result ≡ 2) ↔ (7 < rate) }
    ensures done { (r : LegacyRateView) → rate_of rate ≡ Some r → (result ≡ 0) ↔ (length origins.old ≡ coded_bits_of r) }
    ensures fault { (result ≡ 0) ⊎ (result ≡ 2) ⊎ (result ≡ 5) }
    ensures kept { (result ≡ 0 → ⊥) → origins.new ≡ origins.old }
    ensures length { length origins.new ≡ length origins.old }
    ensures value { result ≡ 0 → (r : LegacyRateView) → rate_of rate ≡ Some r
        → (k : ℕ) → k < length origins.new → slice_index origins.new k ≡ origin_of r k }
{
    let Some(rate) = LegacyRate::of(rate) else {
        return NO_RATE;
    };
    if origins.len() != usize::from(rate.coded_bits()) {
        return BAD_LENGTH;
    }
    fill_origins(rate, origins);
    DONE
}

// Writes the values of the pilots of a symbol.
fn fill_pilots(symbol: u32, values: &mut [i8])
    requires { length values.old ≡ 4 }
    ensures length { length values.new ≡ length values.old }
    ensures value { (k : ℕ) → k < length values.new → slice_index_or values.new k (pos 0) ≡ pilot_of symbol k }
{
    for k in 0..4u8 {
        values[usize::from(k)] = legacy_pilot(symbol, k);
    }
}

/// The values of the four pilots of a symbol, each 1 or -1 (clause 18.3.5.9). Symbols count from 0, behind SIGNAL.
#[unsafe(no_mangle)]
pub extern "C" fn mizgaure_legacy_pilots(symbol: u32, values: &mut [i8]) -> u32
    ensures done { (result ≡ 0) ↔ (length values.old ≡ 4) }
    ensures fault { (result ≡ 0) ⊎ (result ≡ 5) }
    ensures kept { (result ≡ 0 → ⊥) → values.new ≡ values.old }
    ensures length { length values.new ≡ length values.old }
    ensures value { result ≡ 0 → (k : ℕ) → k < length values.new → slice_index_or values.new k (pos 0) ≡ pilot_of symbol k }
{
    if values.len() != 4 {
        return BAD_LENGTH;
    }
    fill_pilots(symbol, values);
    DONE
}
