//! The decoder: all 64 states at once, their costs modulo 256. The ways of a state cost so nearly the same that their
//! difference modulo 256 says which is the lesser.
ghost use Rattle.std.specs.Prelude.{◌≡◌, ◌+◌, ◌%◌, ◌<◌, ◌≤◌, ◌^◌, ◌*◌, ◌↔◌, ℕ, true, false, IfOk};
ghost use Rattle.std.specs.Prelude.{length, drop, map, replicate, slice_index, vec_capacity};
ghost use Rattle.std.specs.Int.{bit_at};
ghost use Rattle.ht_conv.specs.Puncturing.{sent_count};
ghost use Rattle.ht_viterbi.specs.Inputs.{IsFound, place_cost, tail};
ghost use Rattle.ht_viterbi.specs.Trellis.{StepCosts, branch_cost, way, chosen, lesser, least_from, AreChoices};
ghost use Rattle.ht_viterbi.specs.Lanes.{HasLanes, HoldsRows, IsClose, IsLight, rise, steps_at};
ghost use Rattle.ht_viterbi.specs.Packed.{packed};
ghost use Rattle.ht_viterbi.specs.Received.{known_of};

use crate::branches::{Branches, costs_of_zero, lanes_of, rises};
use crate::clean::explain;
use crate::codeword::Codeword;
use crate::lanes::{after_zero, differences, falls, negative, sums, with_one};
use crate::packed::{explain_packed, is_one};
use crate::received_bit::ReceivedBit;
use crate::rows::fill_rows;
use crate::walk::forwards;
use ht_bits::Bits;
use ht_conv::sent;
use ht_rate::Pattern;
use std::alloc::{AllocError, Global};
use std::simd::prelude::*;

// One step of the trellis: `zero` is what a 0 costs from each state, and `more` what a 1 costs more. The answer has the
// new costs, modulo 256, and the states at which a 1 is taken.
#[inline(always)]
fn step(costs: u8x64, zero: u8x64, more: u8x64, free: bool) -> (u8x64, u64)
    ensures costs { (table : ℕ → ℕ) (branches : StepCosts) → IsLight 2 branches → HasLanes costs (λ k. table k % 256)
        → HasLanes zero (λ k. branch_cost branches k false) → HasLanes more (rise branches) → IsClose table branches
        → HasLanes result.0 (λ k. lesser free (way table branches k false) (way table branches k true) % 256) }
    ensures choices { (table : ℕ → ℕ) (branches : StepCosts) → IsLight 2 branches → HasLanes costs (λ k. table k % 256)
        → HasLanes zero (λ k. branch_cost branches k false) → HasLanes more (rise branches) → IsClose table branches
        → (k : ℕ) → k < 64 → (bit_at result.1 k ≡ 1) ↔ (chosen free (way table branches k false) (way table branches k true) ≡ true) }
{
    let zero_ways = sums(after_zero(costs), zero);
    if free {
        let apart = after_zero(differences(with_one(costs), costs));
        let ahead = sums(apart, more);
        (sums(zero_ways, falls(ahead)), negative(ahead))
    } else {
        (zero_ways, 0)
    }
}

// After how many steps the whole distance is looked at again.
const STRETCH: usize = 64;

// The number of tail bits.
pub(crate) const TAIL: usize = 6;

// No state costs anything at the end.
#[inline(always)]
fn no_costs() -> u8x64
    ensures { result ≡ replicate 64 0 }
{
    u8x64::splat(0)
}

// A distance by its lowest octet, where it is known to lie at most 128 above the one before and not far below.
#[inline(always)]
fn carried(before: u32, octet: u8) -> u32
    requires { before ≤ 2 ^ 30 }
    ensures { (n : ℕ) → octet ≡ n % 256 → n ≤ before + 128 → before ≤ n + 12 → result ≡ n }
{
    let most = before + 128;
    most.saturating_sub((most + 256 - u32::from(octet)) % 256)
}

// The cost of state 0, modulo 256.
#[inline(always)]
fn first_lane(costs: u8x64) -> u8
    ensures { result ≡ slice_index costs 0 }
{
    costs[0]
}

// Fills in the choices of some steps, from the last to the first, and gives the costs before them from those behind them.
#[inline(always)]
fn stretch(
    zeros: &Branches,
    rises: &Branches,
    rows: &[u8],
    choices: &mut [u64],
    behind: u8x64,
    from: usize,
    to: usize,
    free: bool,
) -> u8x64
    requires zeros { HoldsRows zeros.now (λ step k. branch_cost step k false) }
    requires rises { HoldsRows rises.now rise }
    requires rows { (k : ℕ) → slice_index rows.now k < 9 }
    requires count { length choices.old ≡ length rows.now }
    requires order { from ≤ to }
    requires within { to ≤ length rows.now }
    requires tail { free ≡ false → length rows.now ≤ from + 6 }
    requires before { free ≡ true → to + 6 ≤ length rows.now }
    requires behind { HasLanes behind (λ k. least_from (steps_at rows.now to) k % 256) }
    requires chosen { AreChoices (steps_at rows.now to) (drop to choices.old) }
    ensures costs { HasLanes result (λ k. least_from (steps_at rows.now from) k % 256) }
    ensures choices { AreChoices (steps_at rows.now from) (drop from choices.new) }
    ensures length { length choices.new ≡ length choices.old }
{
    let mut costs = behind;
    let mut at = to;
    while at > from {
        at -= 1;
        let row = rows[at];
        let (next, word) = step(costs, lanes_of(zeros, row), lanes_of(rises, row), free);
        choices[at] = word;
        costs = next;
    }
    costs
}

// Fills in the choices of all steps, from the last to the first, and gives the least distance from state 0.
fn backwards(rows: &[u8], choices: &mut [u64]) -> u32
    requires rows { (k : ℕ) → slice_index rows.now k < 9 }
    requires tail { 6 ≤ length rows.now }
    requires few { length rows.now ≤ 2 ^ 20 }
    requires count { length choices.old ≡ length rows.now }
    ensures choices { AreChoices (steps_at rows.now 0) choices.new }
    ensures least { result ≡ least_from (steps_at rows.now 0) 0 }
{
    let zeros = costs_of_zero();
    let rises = rises();
    let steps = rows.len();
    let mut at = steps - TAIL;
    let mut costs = stretch(&zeros, &rises, rows, choices, no_costs(), at, steps, false);
    let mut distance = carried(0, first_lane(costs));
    while at > 0 {
        let from = at.saturating_sub(STRETCH);
        costs = stretch(&zeros, &rises, rows, choices, costs, from, at, true);
        distance = carried(distance, first_lane(costs));
        at = from;
    }
    distance
}

// Decodes a codeword that isn't clean.
fn decode_in_lanes(
    alloc: Global,
    steps: u32,
    pattern: Pattern,
    received: &[ReceivedBit],
    room: Vec<bool>,
) -> Result<Codeword, AllocError>
    requires least { tail ≤ steps }
    requires most { steps ≤ 524302 }
    requires received { length received.now ≡ sent_count pattern steps }
    requires room { steps ≤ vec_capacity room }
    ensures { IfOk result (λ c. IsFound place_cost steps pattern (map known_of received.now) c.input c.distance) }
{
    let mut input = room;
    input.clear();
    let mut rows = Vec::from_elem(alloc, 0u8, steps as usize)?;
    let mut choices = Vec::from_elem(alloc, 0u64, steps as usize)?;
    fill_rows(pattern, received, rows.as_mut_slice());
    let distance = backwards(&rows, choices.as_mut_slice());
    forwards(&choices, &mut input);
    Ok(Codeword {
        input: Bits::from(input),
        distance,
    })
}

/// Decodes a punctured codeword: the first terminated input whose coded bits are nearest to `received`.
///
/// `steps` is the length of the input with its tail of six zeros, from 6 to 524302. `received` has the coded bits
/// that `pattern` keeps of these steps, A before B; an erased place counts for nothing. A codeword with no place wrong or
/// erased takes an octet for each bit of the answer, and any other one nine octets a step more, before the first step of
/// the trellis. Lack of memory is the only error, and then nothing has changed.
///
/// IEEE Std 802.11-2012, clauses 18.3.5.6 and 20.3.11.6.
pub fn decode_received(
    alloc: Global,
    steps: u32,
    pattern: Pattern,
    received: &[ReceivedBit],
) -> Result<Codeword, AllocError>
    requires least { tail ≤ steps }
    requires most { steps ≤ 524302 }
    requires received { length received.now ≡ sent_count pattern steps }
    ensures { IfOk result (λ c. IsFound place_cost steps pattern (map known_of received.now) c.input c.distance) }
{
    let mut input = Vec::with_capacity(alloc, steps as usize)?;
    if explain(pattern, steps as usize, received, &mut input) {
        return Ok(Codeword {
            input: Bits::from(input),
            distance: 0,
        });
    }
    decode_in_lanes(alloc, steps, pattern, received, input)
}

/// Decodes a punctured codeword of which no place is erased, as [`decode_received`] does, from places that are packed into
/// words: 60 to a word ([`WORD_PLACES`](crate::WORD_PLACES)), the first one lowest. What the words hold behind the places of
/// these steps counts for nothing.
///
/// A clean codeword takes a look into a table for three to five steps. Any other one takes an octet more for each place.
///
/// IEEE Std 802.11-2012, clauses 18.3.5.6 and 20.3.11.6.
pub fn decode_packed(
    alloc: Global,
    steps: u32,
    pattern: Pattern,
    words: &[u64],
) -> Result<Codeword, AllocError>
    requires least { tail ≤ steps }
    requires most { steps ≤ 524302 }
    requires places { sent_count pattern steps ≤ 60 * length words.now }
    ensures { IfOk result (λ c. IsFound place_cost steps pattern (packed words.now (sent_count pattern steps)) c.input c.distance) }
{
    let mut input = Vec::with_capacity(alloc, steps as usize)?;
    if explain_packed(pattern, steps as usize, words, &mut input) {
        return Ok(Codeword {
            input: Bits::from(input),
            distance: 0,
        });
    }
    let received = unpacked(alloc, words, sent(pattern, steps) as usize)?;
    decode_in_lanes(alloc, steps, pattern, &received, input)
}

// The first places of words as received bits.
fn unpacked(alloc: Global, words: &[u64], count: usize) -> Result<Vec<ReceivedBit>, AllocError>
    requires { count ≤ 60 * length words.now }
    ensures { IfOk result (λ bits. map known_of bits.items ≡ packed words.now count) }
{
    let mut bits = Vec::with_capacity(alloc, count)?;
    for place in 0..count {
        bits.push_reserved(ReceivedBit::of(Some(is_one(words, place))));
    }
    Ok(bits)
}

/// Decodes a punctured codeword as [`decode_received`] does, with None where a place is erased. It takes one octet more
/// for each place.
///
/// IEEE Std 802.11-2012, clauses 18.3.5.6 and 20.3.11.6.
pub fn decode(
    alloc: Global,
    steps: u32,
    pattern: Pattern,
    received: &[Option<bool>],
) -> Result<Codeword, AllocError>
    requires least { tail ≤ steps }
    requires most { steps ≤ 524302 }
    requires received { length received.now ≡ sent_count pattern steps }
    ensures { IfOk result (λ c. IsFound place_cost steps pattern received.now c.input c.distance) }
{
    let bits = received_bits(alloc, received)?;
    decode_received(alloc, steps, pattern, &bits)
}

// The same places as received bits.
fn received_bits(alloc: Global, places: &[Option<bool>]) -> Result<Vec<ReceivedBit>, AllocError>
    ensures { IfOk result (λ bits. map known_of bits.items ≡ places.now) }
{
    let mut bits = Vec::with_capacity(alloc, places.len())?;
    for place in places {
        bits.push_reserved(ReceivedBit::of(*place));
    }
    Ok(bits)
}
