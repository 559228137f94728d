//! The stream parser.
ghost use Rattle.std.specs.Prelude.{◌≡◌, ◌⊎◌, ◌↔◌, ◌<◌, length, IsTrue, Ok};
ghost use Rattle.ht_rate.specs.Rates.{rate_of};
ghost use Rattle.ht_rate.specs.declared.rates.Rate.{Rate as RateView};
ghost use Rattle.ht_parse.specs.Streams.{IsLaid};
ghost use Rattle.ht_library.specs.Mapped.{AreSymbolBits};

use crate::fault::{BAD_LENGTH, DONE, NO_MEMORY, NO_RATE};
use ht_parse::{from_streams, to_streams};
use ht_rate::Rate;
use std::alloc::Global;

// Whether a symbol of so many bits comes from so many of each encoder.
#[tactic(auto, unfolding(ht_parse::specs::Streams::share_of))]
fn are_symbol_bits(rate: &Rate, bits: usize, first: usize, second: usize) -> bool
    ensures { IsTrue result ↔ AreSymbolBits rate.now bits first second }
{
    let coded = usize::from(rate.coded_bits());
    let encoders = usize::from(rate.encoders());
    if bits != coded || first != coded / encoders {
        return false;
    }
    second == (encoders - 1) * first
}

/// Lays the coded bits of one symbol on the spatial streams (clause 20.3.11.8.2): N_CBPS bits, stream after stream. Each encoder
/// gives N_CBPS / N_ES bits, and `second` is empty where the rate has one encoder.
#[unsafe(no_mangle)]
pub extern "C" fn mizgaure_lay(
    alloc: Global,
    bandwidth: u8,
    mcs: u8,
    first: &[bool],
    second: &[bool],
    bits: &mut [bool],
) -> u32
    ensures no_rate { (result ≡ 2) ↔ ((1 < bandwidth) ⊎ (31 < mcs)) }
    ensures bad_length { (rate : RateView) → rate_of bandwidth mcs ≡ Ok rate
        → (result ≡ 5) ↔ (AreSymbolBits rate (length bits.old) (length first.now) (length second.now) → ⊥) }
    ensures fault { (result ≡ 0) ⊎ (result ≡ 1) ⊎ (result ≡ 2) ⊎ (result ≡ 5) }
    ensures kept { (result ≡ 0 → ⊥) → bits.new ≡ bits.old }
    ensures length { length bits.new ≡ length bits.old }
    ensures value { result ≡ 0 → (rate : RateView) → rate_of bandwidth mcs ≡ Ok rate → IsLaid rate bits.new first.now second.now }
{
    let Ok(rate) = Rate::of(bandwidth, mcs) else {
        return NO_RATE;
    };
    if !are_symbol_bits(&rate, bits.len(), first.len(), second.len()) {
        return BAD_LENGTH;
    }
    let Ok(laid) = to_streams(alloc, &rate, first, second) else {
        return NO_MEMORY;
    };
    bits.copy_from_slice(&laid);
    DONE
}

/// Gathers the coded bits of one symbol from the spatial streams, which undoes [`mizgaure_lay`].
#[unsafe(no_mangle)]
pub extern "C" fn mizgaure_gather(
    alloc: Global,
    bandwidth: u8,
    mcs: u8,
    bits: &[bool],
    first: &mut [bool],
    second: &mut [bool],
) -> u32
    ensures no_rate { (result ≡ 2) ↔ ((1 < bandwidth) ⊎ (31 < mcs)) }
    ensures bad_length { (rate : RateView) → rate_of bandwidth mcs ≡ Ok rate
        → (result ≡ 5) ↔ (AreSymbolBits rate (length bits.now) (length first.old) (length second.old) → ⊥) }
    ensures fault { (result ≡ 0) ⊎ (result ≡ 1) ⊎ (result ≡ 2) ⊎ (result ≡ 5) }
    ensures kept { (result ≡ 0 → ⊥) → (first.new ≡ first.old) × (second.new ≡ second.old) }
    ensures length { (length first.new ≡ length first.old) × (length second.new ≡ length second.old) }
    ensures value { result ≡ 0 → (rate : RateView) → rate_of bandwidth mcs ≡ Ok rate → IsLaid rate bits.now first.new second.new }
{
    let Ok(rate) = Rate::of(bandwidth, mcs) else {
        return NO_RATE;
    };
    if !are_symbol_bits(&rate, bits.len(), first.len(), second.len()) {
        return BAD_LENGTH;
    }
    let Ok(pair) = from_streams(alloc, &rate, bits) else {
        return NO_MEMORY;
    };
    first.copy_from_slice(pair.first.as_slice());
    second.copy_from_slice(pair.second.as_slice());
    DONE
}
