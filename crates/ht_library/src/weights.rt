//! The weights of label bits.
ghost use Rattle.std.specs.Prelude.{◌≡◌, ◌⊎◌, ◌↔◌, ◌<◌, ◌≤◌, length, IsTrue, Ok};
ghost use Rattle.ht_rate.specs.Rates.{rate_of};
ghost use Rattle.ht_rate.specs.declared.rates.Rate.{Rate as RateView};
ghost use Rattle.ht_library.specs.Weighed.{AreWeighed, AreWeights};

use crate::crossing::{MizgaureChannel, MizgaureReceived};
use crate::detection::job_at;
use crate::fault::{BAD_LENGTH, DONE, NO_RATE};
use ht_map::grid;
use ht_rate::Rate;
use ht_weigh::weigh;

// Whether there is a weight for each label bit of so many samples.
fn are_weighed(rate: &Rate, channels: usize, received: usize, weights: usize) -> bool
    ensures { IsTrue result ↔ AreWeighed rate.now channels received weights }
{
    if channels == 0 || received % channels != 0 {
        return false;
    }
    let each = usize::from(rate.streams()) * usize::from(rate.label_bits());
    match received.checked_mul(each) {
        Some(all) => weights == all,
        None => false,
    }
}

// Writes the weights of all label bits, job by job.
fn fill_weights(
    rate: &Rate,
    channels: &[MizgaureChannel],
    received: &[MizgaureReceived],
    weights: &mut [i32],
)
    requires { AreWeighed rate.now (length channels.now) (length received.now) (length weights.old) }
    ensures length { length weights.new ≡ length weights.old }
    ensures value { AreWeights (length weights.new) rate.now channels.now received.now weights.new }
{
    let grid = grid(rate);
    let modulation = rate.modulation();
    let each = usize::from(rate.streams()) * usize::from(rate.label_bits());
    for k in 0..received.len() {
        let job = job_at(rate, &grid, channels, received, k);
        let at = k * each;
        let _least = weigh(modulation, &job, &mut weights[at..at + each]);
    }
}

/// The weights of the label bits of any number of symbols' data subcarriers, in the order symbol, subcarrier, stream, bit: the
/// least distance where the bit is 0 less the least one where it is 1, cut to 17 bits. Samples meet channels as in
/// [`mizgaure_detect_symbols`](crate::symbols::mizgaure_detect_symbols).
#[unsafe(no_mangle)]
pub extern "C" fn mizgaure_weigh_symbols(
    bandwidth: u8,
    mcs: u8,
    channels: &[MizgaureChannel],
    received: &[MizgaureReceived],
    weights: &mut [i32],
) -> u32
    ensures no_rate { (result ≡ 2) ↔ ((1 < bandwidth) ⊎ (31 < mcs)) }
    ensures bad_length { (rate : RateView) → rate_of bandwidth mcs ≡ Ok rate
        → (result ≡ 5) ↔ (AreWeighed rate (length channels.now) (length received.now) (length weights.old) → ⊥) }
    ensures fault { (result ≡ 0) ⊎ (result ≡ 2) ⊎ (result ≡ 5) }
    ensures kept { (result ≡ 0 → ⊥) → weights.new ≡ weights.old }
    ensures length { length weights.new ≡ length weights.old }
    ensures value { result ≡ 0 → (rate : RateView) → rate_of bandwidth mcs ≡ Ok rate
        → AreWeights (length weights.new) rate channels.now received.now weights.new }
{
    let Ok(rate) = Rate::of(bandwidth, mcs) else {
        return NO_RATE;
    };
    if !are_weighed(&rate, channels.len(), received.len(), weights.len()) {
        return BAD_LENGTH;
    }
    fill_weights(&rate, channels, received, weights);
    DONE
}
