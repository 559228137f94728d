//! Coded bits packed into words of 60, as `ht_viterbi` takes them, from an octet for each.
ghost use Rattle.std.specs.Prelude.{◌≡◌, ◌+◌, ◌*◌, ◌<◌, ◌≤◌, ◌↔◌, ℕ, true, IfOk, length, replicate, slice_index, slice_index_or};
ghost use Rattle.std.specs.Int.{bit_at};
ghost use Rattle.ht_viterbi.specs.Packed.{flag};
ghost use Rattle.ht_inverse.specs.Shares.{HasMarks, is_one};

use ht_viterbi::WORD_PLACES;
use std::alloc::{AllocError, Global};
use std::simd::prelude::*;

// The number of octets that are looked at together.
const LANES: usize = 64;

// A bit for each octet: 1 where it isn't 0.
#[inline(always)]
fn flags(octets: u8x64) -> u64
    ensures { (k : ℕ) → k < 64 → (bit_at result k ≡ 1) ↔ (is_one (slice_index octets k) ≡ true) }
{
    octets.simd_ge(u8x64::splat(1)).to_bitmask()
}

// No octet that isn't 0.
fn zeros() -> [u8; 64]
    ensures { result ≡ replicate 64 0 }
{
    [0; 64]
}

// A few octets, with zeros behind them.
fn filled_up(octets: &[u8]) -> [u8; 64]
    requires { length octets.now < 64 }
    ensures { (k : ℕ) → k < 64 → slice_index result k ≡ slice_index_or octets.now k 0 }
{
    let mut lanes = zeros();
    for k in 0..octets.len() {
        lanes[k] = octets[k];
    }
    lanes
}

// The word of 60 octets. Where there are fewer, its other places are 0.
#[inline(always)]
fn word_from(octets: &[u8], start: usize) -> u64
    requires { start ≤ length octets.now }
    ensures { (k : ℕ) → k < 60 → flag result k ≡ is_one (slice_index_or octets.now (start + k) 0) }
{
    let rest = &octets[start..];
    if rest.len() < LANES {
        flags(u8x64::from_array(filled_up(rest)))
    } else {
        flags(u8x64::from_slice(rest))
    }
}

/// The words of a list of octets, each of which is a 0 or, where it isn't 0, a 1: 60 to a word
/// ([`WORD_PLACES`](ht_viterbi::WORD_PLACES)), the first one lowest, as [`decode_packed`](ht_viterbi::decode_packed) takes
/// them. There is a word at least for each 60 that were begun. The only refusal is lack of memory.
pub fn packed_words(alloc: Global, octets: &[u8]) -> Result<Vec<u64>, AllocError>
    ensures places { IfOk result (λ words. length octets.now ≤ 60 * length words.items) }
    ensures marks { IfOk result (λ words. HasMarks words.items octets.now (length octets.now)) }
{
    let count = octets.len() / WORD_PLACES + 1;
    let mut words = Vec::with_capacity(alloc, count)?;
    for at in 0..count {
        words.push_reserved(word_from(octets, WORD_PLACES * at));
    }
    Ok(words)
}
