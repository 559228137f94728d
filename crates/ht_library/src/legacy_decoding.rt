//! Frames of clause 18, decoded.
ghost use Rattle.std.specs.Prelude.{◌≡◌, ◌≢◌, ◌⊎◌, ◌↔◌, ◌<◌, length, IsTrue, Some};
ghost use Rattle.ht_clause18.specs.Rates.{rate_of};
ghost use Rattle.ht_clause18.specs.declared.rates.LegacyRate.{LegacyRate as LegacyRateView};
ghost use Rattle.ht_inverse.specs.declared.outcome.Outcome.TheVariants.{Octets, SeedZero};
ghost use Rattle.ht_legacy_inverse.specs.Decoding.{legacy_decoded_frame};
ghost use Rattle.ht_library.specs.Legacy.{HasLegacyLabelsOf};

use crate::fault::{BAD_LENGTH, DONE, NO_MEMORY, NO_RATE, NO_SEED};
use ht_clause18::LegacyRate;
use ht_inverse::Outcome;
use ht_legacy_inverse::legacy_decode_frame;
use std::alloc::Global;

// Whether the frame of a PSDU of so many octets has so many labels.
fn has_labels(rate: LegacyRate, octets: usize, labels: usize) -> bool
    ensures { IsTrue result ↔ HasLegacyLabelsOf rate octets labels }
{
    if octets < 1 || octets > 4095 {
        return false;
    }
    labels == rate.symbols(octets as u16) as usize * 48
}

/// Decodes the labels of a clause 18 frame to the octets of its PSDU by hard decisions, and says at how many places the coded bits of
/// the answer differ (clauses 18.3.5.2 to 18.3.5.8 backwards).
///
/// The labels are in the order symbol, data subcarrier. As many octets are decoded as there is room for. Rates are 0 to 7 in the
/// order of their megabits.
#[unsafe(no_mangle)]
pub extern "C" fn mizgaure_legacy_decode_frame(
    alloc: Global,
    rate: u8,
    labels: &[u8],
    octets: &mut [u8],
    differences: &mut u32,
) -> u32
    ensures no_rate { (result ≡ 2) ↔ (7 < rate) }
    ensures bad_length { (r : LegacyRateView) → rate_of rate ≡ Some r
        → (result ≡ 5) ↔ (HasLegacyLabelsOf r (length octets.old) (length labels.now) → ⊥) }
    ensures fault { (result ≡ 0) ⊎ (result ≡ 1) ⊎ (result ≡ 2) ⊎ (result ≡ 4) ⊎ (result ≡ 5) }
    ensures kept { (result ≡ 0 → ⊥) → (octets.new ≡ octets.old) × (differences.new ≡ differences.old) }
    ensures length { length octets.new ≡ length octets.old }
    ensures no_seed { (r : LegacyRateView) → rate_of rate ≡ Some r → HasLegacyLabelsOf r (length octets.old) (length labels.now) → result ≢ 1
        → (result ≡ 4) ↔ ((legacy_decoded_frame r (length octets.old) labels.now).outcome ≡ SeedZero) }
    ensures value { result ≡ 0 → (r : LegacyRateView) → rate_of rate ≡ Some r
        → legacy_decoded_frame r (length octets.old) labels.now ≡ record { outcome = Octets octets.new; code = differences.new } }
{
    let Some(rate) = LegacyRate::of(rate) else {
        return NO_RATE;
    };
    if !has_labels(rate, octets.len(), labels.len()) {
        return BAD_LENGTH;
    }
    let Ok(frame) = legacy_decode_frame(alloc, rate, octets.len() as u16, labels) else {
        return NO_MEMORY;
    };
    let Outcome::Octets(found) = &frame.outcome else {
        return NO_SEED;
    };
    octets.copy_from_slice(found.as_slice());
    *differences = frame.code;
    DONE
}
