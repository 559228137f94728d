//! Codewords and frames, sent and decoded.
ghost use Rattle.std.specs.Prelude.{◌≡◌, ◌⊎◌, ◌↔◌, ◌<◌, ◌≤◌, length, map, IfOk, IsTrue};
ghost use Rattle.ht_viterbi.specs.Inputs.{IsFound, place_cost, weight_cost};
ghost use Rattle.ht_viterbi.specs.Received.{known_of};
ghost use Rattle.ht_library.specs.Codes.{IsCodeword, known_at, pattern_at};

use crate::chain::pattern_of;
use crate::fault::{BAD_LENGTH, DONE, NO_MEMORY, NO_PATTERN};
use ht_conv::sent;
use ht_rate::Pattern;
use ht_viterbi::{ReceivedBit, decode_received, decode_weights};
use std::alloc::{AllocError, Global};

// Whether an input of so many steps, 6 to 524302, is sent as so many places.
fn fits(pattern: Pattern, steps: usize, places: usize) -> bool
    ensures { IsTrue result ↔ IsCodeword pattern steps places }
{
    steps >= 6 && steps <= 524302 && places as u64 == sent(pattern, steps as u32)
}

// The received bit of an octet.
fn received_bit(octet: u8) -> ReceivedBit
    ensures { known_of result ≡ known_at octet }
{
    match octet {
        0 => ReceivedBit::Zero,
        1 => ReceivedBit::One,
        _ => ReceivedBit::Erased,
    }
}

// The received bits of octets.
fn received_bits(alloc: Global, octets: &[u8]) -> Result<Vec<ReceivedBit>, AllocError>
    ensures { IfOk result (λ bits. map known_of bits.items ≡ map known_at octets.now) }
{
    let mut bits = Vec::with_capacity(alloc, octets.len())?;
    for octet in octets {
        bits.push_reserved(received_bit(*octet));
    }
    Ok(bits)
}

/// Decodes a codeword from hard decisions, each 0, 1, or any other number where the place is erased: the first of the
/// terminated inputs that are nearest, tail included, and how many places differ from it (clauses 18.3.5.6 and 20.3.11.6
/// backwards).
#[unsafe(no_mangle)]
pub extern "C" fn mizgaure_decode(
    alloc: Global,
    pattern: u8,
    received: &[u8],
    input: &mut [bool],
    distance: &mut u32,
) -> u32
    ensures no_pattern { (result ≡ 3) ↔ (3 < pattern) }
    ensures bad_length { (result ≡ 5) ↔ ((pattern ≤ 3) × (IsCodeword (pattern_at pattern) (length input.old) (length received.now) → ⊥)) }
    ensures fault { (result ≡ 0) ⊎ (result ≡ 1) ⊎ (result ≡ 3) ⊎ (result ≡ 5) }
    ensures kept { (result ≡ 0 → ⊥) → (input.new ≡ input.old) × (distance.new ≡ distance.old) }
    ensures length { length input.new ≡ length input.old }
    ensures value { result ≡ 0
        → IsFound place_cost (length input.new) (pattern_at pattern) (map known_at received.now) input.new distance.new }
{
    let Some(pattern) = pattern_of(pattern) else {
        return NO_PATTERN;
    };
    if !fits(pattern, input.len(), received.len()) {
        return BAD_LENGTH;
    }
    let Ok(bits) = received_bits(alloc, received) else {
        return NO_MEMORY;
    };
    let Ok(codeword) = decode_received(alloc, input.len() as u32, pattern, &bits) else {
        return NO_MEMORY;
    };
    input.copy_from_slice(codeword.input.as_slice());
    *distance = codeword.distance;
    DONE
}

/// Decodes a codeword from weights, positive where a 1 is likelier and negative where a 0 is: the first of the terminated
/// inputs that cost least, tail included, and its cost, the sum of the sizes of the weights that speak against it.
#[unsafe(no_mangle)]
pub extern "C" fn mizgaure_soft_decode(
    alloc: Global,
    pattern: u8,
    weights: &[i32],
    input: &mut [bool],
    cost: &mut u64,
) -> u32
    ensures no_pattern { (result ≡ 3) ↔ (3 < pattern) }
    ensures bad_length { (result ≡ 5) ↔ ((pattern ≤ 3) × (IsCodeword (pattern_at pattern) (length input.old) (length weights.now) → ⊥)) }
    ensures fault { (result ≡ 0) ⊎ (result ≡ 1) ⊎ (result ≡ 3) ⊎ (result ≡ 5) }
    ensures kept { (result ≡ 0 → ⊥) → (input.new ≡ input.old) × (cost.new ≡ cost.old) }
    ensures length { length input.new ≡ length input.old }
    ensures value { result ≡ 0
        → IsFound weight_cost (length input.new) (pattern_at pattern) weights.now input.new cost.new }
{
    let Some(pattern) = pattern_of(pattern) else {
        return NO_PATTERN;
    };
    if !fits(pattern, input.len(), weights.len()) {
        return BAD_LENGTH;
    }
    let Ok(codeword) = decode_weights(alloc, input.len() as u32, pattern, weights) else {
        return NO_MEMORY;
    };
    input.copy_from_slice(codeword.input.as_slice());
    *cost = codeword.cost;
    DONE
}
