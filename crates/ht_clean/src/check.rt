//! The check of a guess: whether its wrong places are sparse, so that no other input is as near.
ghost use Rattle.std.specs.Prelude.{◌≡◌, ◌+◌, ◌-◌, ◌*◌, ◌<◌, ◌≤◌, ◌^◌, ℕ, suc, min, true, IfSome, IsTrue, length, slice_index_or};
ghost use Rattle.ht_conv.specs.Puncturing.{sent_count};
ghost use Rattle.ht_viterbi.specs.Inputs.{IsFound, is_terminated, place_cost, tail};
ghost use Rattle.ht_viterbi.specs.Packed.{flag, packed, word_steps};
ghost use Rattle.ht_clean.specs.Sparse.{IsPoured, brim, input_bit, unpacked};

use crate::bucket::Bucket;
use crate::layout::steps_of_word;
use crate::planes::{low_bits, wrong_places};
use ht_rate::Pattern;

// The number of tail bits.
const TAIL: u32 = 6;

/// An input bit, where words hold the input.
#[inline(always)]
pub(crate) fn bit_at(pattern: Pattern, input: &[u64], step: u32) -> bool
    requires { step < word_steps pattern * length input.now }
    ensures { result ≡ input_bit pattern input.now step }
{
    let width = steps_of_word(pattern);
    input[(step / width) as usize] >> (step % width) & 1 == 1
}

// Whether the input's last six bits are 0.
fn is_ended(pattern: Pattern, steps: u32, input: &[u64]) -> bool
    requires least { tail ≤ steps }
    requires within { steps ≤ word_steps pattern * length input.now }
    ensures { result ≡ true → IsTrue (is_terminated steps (unpacked pattern input.now steps)) }
{
    for step in steps - TAIL..steps {
        if bit_at(pattern, input, step) {
            return false;
        }
    }
    true
}

// The input of the word before one.
#[inline(always)]
fn input_before(pattern: Pattern, input: &[u64], at: usize) -> u64
    requires { at ≤ length input.now }
    ensures first { at ≡ 0 → result ≡ 0 }
    ensures behind { (before step : ℕ) → at ≡ suc before → step < word_steps pattern
        → flag result step ≡ flag (slice_index_or input.now before 0) step }
    ensures bound { result < 2 ^ word_steps pattern }
{
    if at == 0 {
        0
    } else {
        low_bits(input[at - 1], steps_of_word(pattern))
    }
}

// The bucket after a word, if it doesn't come to its brim.
#[inline(always)]
fn after_word(
    pattern: Pattern,
    steps: u32,
    words: &[u64],
    input: &[u64],
    at: usize,
    bucket: Bucket,
) -> Option<Bucket>
    requires most { steps ≤ 524302 }
    requires places { sent_count pattern steps ≤ 60 * length words.now }
    requires within { steps ≤ word_steps pattern * length input.now }
    requires at { at * word_steps pattern < steps }
    requires low { bucket.level < brim pattern }
    requires few { bucket.wrong ≤ 2 * (at * word_steps pattern) }
    requires poured { IsPoured pattern (packed words.now (sent_count pattern steps)) (unpacked pattern input.now steps)
        (min (at * word_steps pattern) steps) bucket.level bucket.wrong }
    ensures poured { IfSome result (λ next.
        IsPoured pattern (packed words.now (sent_count pattern steps)) (unpacked pattern input.now steps)
        (min ((at + 1) * word_steps pattern) steps) next.level next.wrong) }
    ensures low { IfSome result (λ next. next.level < brim pattern) }
    ensures few { IfSome result (λ next. next.wrong ≤ 2 * ((at + 1) * word_steps pattern)) }
{
    let width = steps_of_word(pattern);
    let count = (steps - at as u32 * width).min(width);
    let current = low_bits(input[at], width);
    let previous = input_before(pattern, input, at);
    let wrong = wrong_places(pattern, words[at], current, previous, count);
    bucket.after(pattern, wrong, count)
}

// The number of wrong places, where the input is terminated and they are sparse.
#[inline(always)]
fn wrong_if_sparse(pattern: Pattern, steps: u32, words: &[u64], input: &[u64]) -> Option<u32>
    requires least { tail ≤ steps }
    requires most { steps ≤ 524302 }
    requires places { sent_count pattern steps ≤ 60 * length words.now }
    requires within { steps ≤ word_steps pattern * length input.now }
    ensures { IfSome result (λ wrong.
        IsFound place_cost steps pattern (packed words.now (sent_count pattern steps)) (unpacked pattern input.now steps) wrong) }
{
    if !is_ended(pattern, steps, input) {
        return None;
    }
    let count = steps.div_ceil(steps_of_word(pattern)) as usize;
    let mut bucket = Bucket { level: 0, wrong: 0 };
    for at in 0..count {
        match after_word(pattern, steps, words, input, at, bucket) {
            Some(next) => bucket = next,
            None => return None,
        }
    }
    Some(bucket.wrong)
}

/// The number of wrong places, where the input is terminated and they are sparse: it is then the nearest one.
///
/// Each pattern has its own loop, in which a word's layout is known.
pub(crate) fn wrong_if_nearest(
    pattern: Pattern,
    steps: u32,
    words: &[u64],
    input: &[u64],
) -> Option<u32>
    requires least { tail ≤ steps }
    requires most { steps ≤ 524302 }
    requires places { sent_count pattern steps ≤ 60 * length words.now }
    requires within { steps ≤ word_steps pattern * length input.now }
    ensures { IfSome result (λ wrong.
        IsFound place_cost steps pattern (packed words.now (sent_count pattern steps)) (unpacked pattern input.now steps) wrong) }
{
    match pattern {
        Pattern::Half => wrong_if_sparse(Pattern::Half, steps, words, input),
        Pattern::TwoThirds => wrong_if_sparse(Pattern::TwoThirds, steps, words, input),
        Pattern::ThreeQuarters => wrong_if_sparse(Pattern::ThreeQuarters, steps, words, input),
        Pattern::FiveSixths => wrong_if_sparse(Pattern::FiveSixths, steps, words, input),
    }
}
