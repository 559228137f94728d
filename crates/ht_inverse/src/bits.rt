//! From the inputs of the encoders to octets.
ghost use Rattle.std.specs.Prelude.{◌≡◌, ◌+◌, ◌-◌, ◌*◌, ◌%◌, ◌^◌, ◌≤◌, ℕ, List, IfOk, length, take};
ghost use Rattle.ht_rate.specs.Rates.{encoders_of, pattern_of, steps_of};
ghost use Rattle.ht_parse.specs.Encoders.{list_of};
ghost use Rattle.ht_inverse.specs.Decoding.{decoded_frame, joined_bits, outcome_of};
ghost use Rattle.ht_inverse.specs.Shares.{AreCodewords, untailed};
ghost use Rattle.ht_inverse.specs.Words.{HasSteps, opened};

use crate::decoded::Decoded;
use crate::inputs::words_come_to;
use crate::octets::Octets;
use crate::outcome::Outcome;
use ht_bits::{Bits, bits_to_octets};
use ht_clean::PackedInput;
use ht_parse::join_encoders;
use ht_rate::Rate;
use ht_scramble::{recover, scramble};
use std::alloc::{AllocError, Global};

// The number of bits of SERVICE.
const SERVICE: usize = 16;

// The number of tail bits of an encoder.
const TAIL: usize = 6;

// The first seven bits.
fn first_seven(bits: &[bool]) -> [bool; 7]
    requires { 7 ≤ length bits.now }
    ensures { result ≡ take 7 bits.now }
{
    [
        bits[0], bits[1], bits[2], bits[3], bits[4], bits[5], bits[6],
    ]
}

// What scrambled bits come to: the 16 of SERVICE, and eight of each octet. They are descrambled where they stand.
fn come_to(alloc: Global, bits: &mut [bool]) -> Result<Outcome, AllocError>
    requires service { 16 ≤ length bits.old }
    requires octets { (length bits.old - 16) % 8 ≡ 0 }
    ensures { IfOk result (λ outcome. outcome ≡ outcome_of bits.old) }
{
    let Some(seed) = recover(&first_seven(bits)) else {
        return Ok(Outcome::SeedZero);
    };
    scramble(bits, seed);
    let octets = bits_to_octets(alloc, &bits[SERVICE..])?;
    Ok(Outcome::Octets(Octets::from(octets)))
}

// An input without its tail.
fn without_tail(input: &Bits) -> &[bool]
    ensures { result.now ≡ untailed input.now }
{
    let bits = input.as_slice();
    &bits[..bits.len().saturating_sub(TAIL)]
}

/// What the inputs of a frame's encoders come to, each with its tail of six bits. Where the rate has one encoder, `second`
/// is empty. The only refusal is lack of memory.
///
/// IEEE Std 802.11-2012, clauses 20.3.11.5, 18.3.5.2 and 18.3.5.5.
pub fn inputs_come_to(
    alloc: Global,
    rate: &Rate,
    octets: u16,
    first: &Bits,
    second: &Bits,
) -> Result<Outcome, AllocError>
    requires first { length first.now ≡ steps_of rate.now octets }
    requires second { length second.now ≡ (encoders_of rate.now - 1) * steps_of rate.now octets }
    ensures { IfOk result (λ outcome. outcome ≡ outcome_of (joined_bits rate.now octets (list_of first.now second.now))) }
{
    let mut bits = join_encoders(alloc, rate, without_tail(first), without_tail(second))?;
    come_to(alloc, bits.as_mut_slice())
}

/// The frame of these codewords, whose inputs stand in words. The only refusal is lack of memory.
pub(crate) fn frame_of(
    alloc: Global,
    rate: &Rate,
    octets: u16,
    first: PackedInput,
    second: PackedInput,
) -> Result<Decoded, AllocError>
    requires first { HasSteps rate.now (steps_of rate.now octets) first }
    requires second { HasSteps rate.now ((encoders_of rate.now - 1) * steps_of rate.now octets) second }
    requires few { first.distance + second.distance ≤ 2 ^ 31 }
    ensures { (erased : ℕ) (labels : List ℕ) → AreCodewords rate.now octets erased labels
        (opened (pattern_of rate.now) (steps_of rate.now octets) first)
        (opened (pattern_of rate.now) ((encoders_of rate.now - 1) * steps_of rate.now octets) second)
        → IfOk result (λ frame. frame ≡ decoded_frame rate.now octets erased labels) }
{
    let two = rate.encoders() == 2;
    let outcome = words_come_to(
        alloc,
        rate.pattern(),
        two,
        &first.words,
        &second.words,
        u32::from(octets),
    )?;
    Ok(Decoded {
        outcome,
        code: first.distance + second.distance,
    })
}
