//! The encoder parser.
ghost use Rattle.std.specs.Prelude.{◌≡◌, ◌⊎◌, ◌↔◌, ◌<◌, length, IsTrue, Ok};
ghost use Rattle.ht_rate.specs.Rates.{rate_of};
ghost use Rattle.ht_rate.specs.declared.rates.Rate.{Rate as RateView};
ghost use Rattle.ht_parse.specs.Encoders.{IsParsed};
ghost use Rattle.ht_library.specs.Mapped.{AreShared};

use crate::fault::{BAD_LENGTH, DONE, NO_MEMORY, NO_RATE};
use ht_parse::{join_encoders, split_encoders};
use ht_rate::Rate;
use std::alloc::Global;

// Whether so many bits are those of encoders that have so many each.
fn are_shared(rate: &Rate, bits: usize, first: usize, second: usize) -> bool
    ensures { IsTrue result ↔ AreShared rate.now bits first second }
{
    if rate.encoders() == 1 {
        return first == bits && second == 0;
    }
    bits % 2 == 0 && first == bits / 2 && second == first
}

/// Shares bits out among the encoders of a rate, one to each in turn (clause 20.3.11.5). Where there is one encoder it gets all of
/// them.
#[unsafe(no_mangle)]
pub extern "C" fn mizgaure_split(
    alloc: Global,
    bandwidth: u8,
    mcs: u8,
    bits: &[bool],
    first: &mut [bool],
    second: &mut [bool],
) -> u32
    ensures no_rate { (result ≡ 2) ↔ ((1 < bandwidth) ⊎ (31 < mcs)) }
    ensures bad_length { (rate : RateView) → rate_of bandwidth mcs ≡ Ok rate
        → (result ≡ 5) ↔ (AreShared rate (length bits.now) (length first.old) (length second.old) → ⊥) }
    ensures fault { (result ≡ 0) ⊎ (result ≡ 1) ⊎ (result ≡ 2) ⊎ (result ≡ 5) }
    ensures kept { (result ≡ 0 → ⊥) → (first.new ≡ first.old) × (second.new ≡ second.old) }
    ensures length { (length first.new ≡ length first.old) × (length second.new ≡ length second.old) }
    ensures value { result ≡ 0 → (rate : RateView) → rate_of bandwidth mcs ≡ Ok rate → IsParsed rate bits.now first.new second.new }
{
    let Ok(rate) = Rate::of(bandwidth, mcs) else {
        return NO_RATE;
    };
    if !are_shared(&rate, bits.len(), first.len(), second.len()) {
        return BAD_LENGTH;
    }
    let Ok(pair) = split_encoders(alloc, &rate, bits) else {
        return NO_MEMORY;
    };
    first.copy_from_slice(pair.first.as_slice());
    second.copy_from_slice(pair.second.as_slice());
    DONE
}

/// Puts the bits of the encoders together again, which undoes [`mizgaure_split`].
#[unsafe(no_mangle)]
pub extern "C" fn mizgaure_join(
    alloc: Global,
    bandwidth: u8,
    mcs: u8,
    first: &[bool],
    second: &[bool],
    bits: &mut [bool],
) -> u32
    ensures no_rate { (result ≡ 2) ↔ ((1 < bandwidth) ⊎ (31 < mcs)) }
    ensures bad_length { (rate : RateView) → rate_of bandwidth mcs ≡ Ok rate
        → (result ≡ 5) ↔ (AreShared rate (length bits.old) (length first.now) (length second.now) → ⊥) }
    ensures fault { (result ≡ 0) ⊎ (result ≡ 1) ⊎ (result ≡ 2) ⊎ (result ≡ 5) }
    ensures kept { (result ≡ 0 → ⊥) → bits.new ≡ bits.old }
    ensures length { length bits.new ≡ length bits.old }
    ensures value { result ≡ 0 → (rate : RateView) → rate_of bandwidth mcs ≡ Ok rate → IsParsed rate bits.new first.now second.now }
{
    let Ok(rate) = Rate::of(bandwidth, mcs) else {
        return NO_RATE;
    };
    if !are_shared(&rate, bits.len(), first.len(), second.len()) {
        return BAD_LENGTH;
    }
    let Ok(joined) = join_encoders(alloc, &rate, first, second) else {
        return NO_MEMORY;
    };
    bits.copy_from_slice(&joined);
    DONE
}
