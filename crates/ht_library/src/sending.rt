//! Frames sent, and frames decoded.
ghost use Rattle.std.specs.Prelude.{◌≡◌, ◌≢◌, ◌⊎◌, ◌↔◌, ◌+◌, ◌*◌, ◌^◌, ◌<◌, ◌≤◌, length, IsTrue, Ok};
ghost use Rattle.ht_rate.specs.Rates.{rate_of, label_bits_of};
ghost use Rattle.ht_rate.specs.declared.rates.Rate.{Rate as RateView};
ghost use Rattle.ht_scramble.specs.Sequence.{IsSeed};
ghost use Rattle.ht_tx.specs.Transmitted.{IsTransmitted};
ghost use Rattle.ht_inverse.specs.Decoding.{decoded_frame};
ghost use Rattle.ht_inverse.specs.declared.outcome.Outcome.TheVariants.{Octets, SeedZero};
ghost use Rattle.ht_soft.specs.Frames.{soft_decoded_frame};
ghost use Rattle.ht_library.specs.Framed.{HasFrameOf, HasPointsOf};

use crate::crossing::MizgaureCost;
use crate::fault::{BAD_LENGTH, DONE, NO_MEMORY, NO_RATE, NO_SEED};
use ht_inverse::{Outcome, decode_frame};
use ht_pam::Point;
use ht_rate::Rate;
use ht_scramble::Seed;
use ht_soft::soft_frame;
use ht_tx::{Frame, transmit};
use std::alloc::Global;

// Whether the frame of a PSDU of so many octets has so many points.
#[tactic(auto, unfolding(ht_tx::specs::Symbols::points_of))]
fn has_points(rate: &Rate, octets: usize, points: usize) -> bool
    ensures { IsTrue result ↔ HasPointsOf rate.now octets points }
{
    if octets < 1 || octets > 65535 {
        return false;
    }
    let symbols = rate.symbols(octets as u16) as usize;
    points == symbols * usize::from(rate.carriers()) * usize::from(rate.streams())
}

// Whether the frame of a PSDU of so many octets has so many labels, or values of `each` to a label.
fn has_labels(rate: &Rate, octets: usize, each: u8, values: usize) -> bool
    requires { each ≤ 6 }
    ensures { IsTrue result ↔ HasFrameOf rate.now octets each values }
{
    if octets < 1 || octets > 65535 {
        return false;
    }
    let symbols = rate.symbols(octets as u16) as usize;
    let labels = symbols * (usize::from(rate.data_carriers()) * usize::from(rate.streams()));
    values == labels * usize::from(each)
}

/// The points that are sent for a PSDU, N_SYM * N_ST * N_SS of them in the order symbol, subcarrier, stream (clause 20.3.11).
#[unsafe(no_mangle)]
pub extern "C" fn mizgaure_transmit(
    alloc: Global,
    bandwidth: u8,
    mcs: u8,
    seed: u8,
    octets: &[u8],
    points: &mut [Point],
) -> u32
    ensures no_rate { (result ≡ 2) ↔ ((1 < bandwidth) ⊎ (31 < mcs)) }
    ensures no_seed { (result ≡ 4) ↔ ((bandwidth ≤ 1) × (mcs ≤ 31) × (IsSeed seed → ⊥)) }
    ensures bad_length { (rate : RateView) → rate_of bandwidth mcs ≡ Ok rate → IsSeed seed
        → (result ≡ 5) ↔ (HasPointsOf rate (length octets.now) (length points.old) → ⊥) }
    ensures fault { (result ≡ 0) ⊎ (result ≡ 1) ⊎ (result ≡ 2) ⊎ (result ≡ 4) ⊎ (result ≡ 5) }
    ensures kept { (result ≡ 0 → ⊥) → points.new ≡ points.old }
    ensures length { length points.new ≡ length points.old }
    ensures value { result ≡ 0 → (rate : RateView) → rate_of bandwidth mcs ≡ Ok rate
        → IsTransmitted (record { rate = rate; seed = seed; octets = octets.now })
        (record { rate = rate; length = length octets.now; points = points.new }) }
{
    let Ok(rate) = Rate::of(bandwidth, mcs) else {
        return NO_RATE;
    };
    let Some(seed) = Seed::new(seed) else {
        return NO_SEED;
    };
    if !has_points(&rate, octets.len(), points.len()) {
        return BAD_LENGTH;
    }
    let Ok(octets) = Vec::from_slice(alloc, octets) else {
        return NO_MEMORY;
    };
    let Some(frame) = Frame::new(rate, seed, octets) else {
        return BAD_LENGTH;
    };
    let Ok(sent) = transmit(alloc, &frame) else {
        return NO_MEMORY;
    };
    points.copy_from_slice(sent.points());
    DONE
}

/// Decodes the labels of a frame to the octets of its PSDU by hard decisions, and says at how many places that aren't erased the
/// coded bits of the answer differ (clauses 20.3.11.2 to 20.3.11.6 backwards).
///
/// The labels are in the order symbol, data subcarrier, stream. Bit c of the erasures is set where subcarrier c is erased; the
/// first word has the subcarriers 0 to 63. As many octets are decoded as there is room for.
#[unsafe(no_mangle)]
pub extern "C" fn mizgaure_decode_frame(
    alloc: Global,
    bandwidth: u8,
    mcs: u8,
    erased_low: u64,
    erased_high: u64,
    labels: &[u8],
    octets: &mut [u8],
    differences: &mut u32,
) -> u32
    ensures no_rate { (result ≡ 2) ↔ ((1 < bandwidth) ⊎ (31 < mcs)) }
    ensures bad_length { (rate : RateView) → rate_of bandwidth mcs ≡ Ok rate
        → (result ≡ 5) ↔ (HasFrameOf rate (length octets.old) 1 (length labels.now) → ⊥) }
    ensures fault { (result ≡ 0) ⊎ (result ≡ 1) ⊎ (result ≡ 2) ⊎ (result ≡ 4) ⊎ (result ≡ 5) }
    ensures kept { (result ≡ 0 → ⊥) → (octets.new ≡ octets.old) × (differences.new ≡ differences.old) }
    ensures length { length octets.new ≡ length octets.old }
    ensures no_seed { (rate : RateView) → rate_of bandwidth mcs ≡ Ok rate → HasFrameOf rate (length octets.old) 1 (length labels.now)
        → result ≢ 1
        → (result ≡ 4) ↔ ((decoded_frame rate (length octets.old) (erased_low + 2 ^ 64 * erased_high) labels.now).outcome ≡ SeedZero) }
    ensures value { result ≡ 0 → (rate : RateView) → rate_of bandwidth mcs ≡ Ok rate
        → decoded_frame rate (length octets.old) (erased_low + 2 ^ 64 * erased_high) labels.now
        ≡ record { outcome = Octets octets.new; code = differences.new } }
{
    let Ok(rate) = Rate::of(bandwidth, mcs) else {
        return NO_RATE;
    };
    if !has_labels(&rate, octets.len(), 1, labels.len()) {
        return BAD_LENGTH;
    }
    let erased = u128::from(erased_low) + (u128::from(erased_high) << 64);
    let Ok(frame) = decode_frame(alloc, &rate, octets.len() as u16, erased, labels) else {
        return NO_MEMORY;
    };
    let Outcome::Octets(found) = &frame.outcome else {
        return NO_SEED;
    };
    octets.copy_from_slice(found.as_slice());
    *differences = frame.code;
    DONE
}

/// Decodes the weights of a frame's label bits to the octets of its PSDU, and says what the coded bits of the answer cost.
///
/// The weights are in the order symbol, data subcarrier, stream, bit. All else is as in [`mizgaure_decode_frame`].
#[unsafe(no_mangle)]
pub extern "C" fn mizgaure_soft_frame(
    alloc: Global,
    bandwidth: u8,
    mcs: u8,
    erased_low: u64,
    erased_high: u64,
    weights: &[i32],
    octets: &mut [u8],
    cost: &mut MizgaureCost,
) -> u32
    ensures no_rate { (result ≡ 2) ↔ ((1 < bandwidth) ⊎ (31 < mcs)) }
    ensures bad_length { (rate : RateView) → rate_of bandwidth mcs ≡ Ok rate
        → (result ≡ 5) ↔ (HasFrameOf rate (length octets.old) (label_bits_of rate) (length weights.now) → ⊥) }
    ensures fault { (result ≡ 0) ⊎ (result ≡ 1) ⊎ (result ≡ 2) ⊎ (result ≡ 4) ⊎ (result ≡ 5) }
    ensures kept { (result ≡ 0 → ⊥) → (octets.new ≡ octets.old) × (cost.new ≡ cost.old) }
    ensures length { length octets.new ≡ length octets.old }
    ensures no_seed { (rate : RateView) → rate_of bandwidth mcs ≡ Ok rate → HasFrameOf rate (length octets.old) (label_bits_of rate) (length weights.now)
        → result ≢ 1
        → (result ≡ 4) ↔ ((soft_decoded_frame rate (length octets.old) (erased_low + 2 ^ 64 * erased_high) weights.now).outcome ≡ SeedZero) }
    ensures value { result ≡ 0 → (rate : RateView) → rate_of bandwidth mcs ≡ Ok rate
        → soft_decoded_frame rate (length octets.old) (erased_low + 2 ^ 64 * erased_high) weights.now
        ≡ record { outcome = Octets octets.new; cost = cost.new.low + 2 ^ 64 * cost.new.high } }
{
    let Ok(rate) = Rate::of(bandwidth, mcs) else {
        return NO_RATE;
    };
    if !has_labels(&rate, octets.len(), rate.label_bits(), weights.len()) {
        return BAD_LENGTH;
    }
    let erased = u128::from(erased_low) + (u128::from(erased_high) << 64);
    let Ok(frame) = soft_frame(alloc, &rate, octets.len() as u16, erased, weights) else {
        return NO_MEMORY;
    };
    let Outcome::Octets(found) = &frame.outcome else {
        return NO_SEED;
    };
    octets.copy_from_slice(found.as_slice());
    *cost = MizgaureCost {
        low: (frame.cost % (1 << 64)) as u64,
        high: (frame.cost / (1 << 64)) as u64,
    };
    DONE
}
