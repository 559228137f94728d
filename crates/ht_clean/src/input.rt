//! The input of a codeword in words.
ghost use Rattle.std.specs.Prelude.{◌≡◌, ◌+◌, ◌*◌, ◌<◌, ◌≤◌, ℕ, IfOk, false, length, slice_index_or, vec_capacity};
ghost use Rattle.ht_viterbi.specs.Packed.{flag, word_steps};
ghost use Rattle.ht_clean.specs.Sparse.{input_bit, unpacked};

use crate::layout::steps_of_word;
use crate::planes::low_bits;
use ht_rate::Pattern;
use ht_viterbi::Codeword;
use std::alloc::{AllocError, Global};

/// The nearest input in words, and its distance.
#[derive(Drop)]
pub struct PackedInput {
    /// The encoder's input, its tail of six zeros included: the first step lowest, in each word as many steps as have their
    /// places in a word of 60 places, which is 30 at rate 1/2, 40 at 2/3, 45 at 3/4 and 50 at 5/6.
    pub words: Vec<u64>,
    /// At how many places the coded bits of the input differ from what was received.
    pub distance: u32,
}

impl PackedInput {
    /// A codeword's input in words. The only refusal is lack of memory.
    pub fn of(
        alloc: Global,
        pattern: Pattern,
        codeword: &Codeword,
    ) -> Result<PackedInput, AllocError>
        requires { length codeword.now.input ≤ 524302 }
        ensures input { IfOk result (λ p. unpacked pattern p.words.items (length codeword.now.input) ≡ codeword.now.input) }
        ensures whole { IfOk result (λ p. length codeword.now.input ≤ word_steps pattern * length p.words.items) }
        ensures distance { IfOk result (λ p. p.distance ≡ codeword.now.distance) }
    {
        let words = packed_bits(alloc, pattern, codeword.input.as_slice())?;
        Ok(PackedInput {
            words,
            distance: codeword.distance,
        })
    }
}

// The word of some bits, the first one lowest.
#[inline(always)]
fn word_from(bits: &[bool], start: usize, count: usize) -> u64
    requires within { start + count ≤ length bits.now }
    requires few { count ≤ 64 }
    ensures { (k : ℕ) → k < count → flag result k ≡ slice_index_or bits.now (start + k) false }
{
    let mut word = 0;
    for place in 0..count {
        word |= u64::from(bits[start + place]) << place;
    }
    word
}

// An input in words.
fn packed_bits(alloc: Global, pattern: Pattern, bits: &[bool]) -> Result<Vec<u64>, AllocError>
    requires { length bits.now ≤ 524302 }
    ensures bits { IfOk result (λ words. unpacked pattern words.items (length bits.now) ≡ bits.now) }
    ensures whole { IfOk result (λ words. length bits.now ≤ word_steps pattern * length words.items) }
{
    let width = steps_of_word(pattern) as usize;
    let count = bits.len().div_ceil(width);
    let mut words = Vec::with_capacity(alloc, count)?;
    for at in 0..count {
        let start = at * width;
        words.push_reserved(word_from(bits, start, (bits.len() - start).min(width)));
    }
    Ok(words)
}

/// Eight bits of an input in words from a step on, the first one lowest.
#[inline(always)]
pub fn eight_bits(pattern: Pattern, words: &[u64], from: u32) -> u8
    requires { from + 8 ≤ word_steps pattern * length words.now }
    ensures { (k : ℕ) → k < 8 → flag result k ≡ input_bit pattern words.now (from + k) }
{
    let width = steps_of_word(pattern);
    let at = (from / width) as usize;
    let start = from % width;
    if start + 8 <= width {
        low_bits(words[at] >> start, 8) as u8
    } else {
        let here = low_bits(words[at], width) >> start;
        low_bits(here | words[at + 1] << (width - start), 8) as u8
    }
}

// Appends the bits of a word's first steps, which come next.
#[inline(always)]
fn push_word(pattern: Pattern, words: &[u64], bits: &mut Vec<bool>, at: u32, count: u32)
    requires count { count ≤ word_steps pattern }
    requires within { at * word_steps pattern + count ≤ word_steps pattern * length words.now }
    requires room { at * word_steps pattern + count ≤ vec_capacity bits.old }
    requires so_far { bits.old.items ≡ unpacked pattern words.now (at * word_steps pattern) }
    ensures items { bits.new.items ≡ unpacked pattern words.now (at * word_steps pattern + count) }
    ensures capacity { vec_capacity bits.new ≡ vec_capacity bits.old }
{
    if count > 0 {
        let word = words[at as usize];
        for step in 0..count {
            bits.push_reserved(word >> step & 1 == 1);
        }
    }
}

/// The bits of the first steps, where words hold the input.
pub(crate) fn unpacked_bits(
    alloc: Global,
    steps: u32,
    pattern: Pattern,
    words: &[u64],
) -> Result<Vec<bool>, AllocError>
    requires { steps ≤ word_steps pattern * length words.now }
    ensures { IfOk result (λ bits. bits.items ≡ unpacked pattern words.now steps) }
{
    let width = steps_of_word(pattern);
    let whole = steps / width;
    let mut bits = Vec::with_capacity(alloc, steps as usize)?;
    for at in 0..whole {
        push_word(pattern, words, &mut bits, at, width);
    }
    push_word(pattern, words, &mut bits, whole, steps % width);
    Ok(bits)
}
