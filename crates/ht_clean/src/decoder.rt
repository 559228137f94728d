//! The decoder of words with few wrong places.
ghost use Rattle.std.specs.Prelude.{◌≡◌, ◌+◌, ◌*◌, ◌<◌, ◌≤◌, IfOk, IfSome, length};
ghost use Rattle.ht_conv.specs.Puncturing.{sent_count};
ghost use Rattle.ht_viterbi.specs.Inputs.{IsFound, place_cost, tail};
ghost use Rattle.ht_viterbi.specs.Packed.{packed, word_steps};
ghost use Rattle.ht_clean.specs.Sparse.{unpacked};

use crate::check::wrong_if_nearest;
use crate::guess::guess;
use crate::input::{PackedInput, unpacked_bits};
use crate::layout::steps_of_word;
use crate::peel::peel;
use ht_bits::Bits;
use ht_rate::Pattern;
use ht_viterbi::{Codeword, decode_packed};
use std::alloc::{AllocError, Global};

/// Decodes a punctured codeword of which no place is erased, if its wrong places lie far enough apart: the first terminated
/// input whose coded bits are nearest to the places, which are packed into words as [`decode_packed`](ht_viterbi::decode_packed)
/// takes them. None says nothing of the word.
///
/// The input is guessed, and wrong places are taken out of the guess one by one. What is left is checked: where the bucket
/// into which the wrong places pour never comes to its brim, every other input is farther away. It gives up early where
/// many places are wrong. `steps` is the length of the input with its tail of six zeros, from 6 to 524302. It takes 24 octets for
/// each word, and lack of memory is the only error.
///
/// IEEE Std 802.11-2012, clauses 18.3.5.6 and 20.3.11.6.
pub fn decode_sparse_words(
    alloc: Global,
    steps: u32,
    pattern: Pattern,
    words: &[u64],
) -> Result<Option<PackedInput>, AllocError>
    requires least { tail ≤ steps }
    requires most { steps ≤ 524302 }
    requires places { sent_count pattern steps ≤ 60 * length words.now }
    ensures found { IfOk result (λ answer. IfSome answer (λ p.
        IsFound place_cost steps pattern (packed words.now (sent_count pattern steps)) (unpacked pattern p.words.items steps) p.distance)) }
    ensures whole { IfOk result (λ answer. IfSome answer (λ p. steps ≤ word_steps pattern * length p.words.items)) }
{
    let width = steps_of_word(pattern);
    let count = steps.div_ceil(width) as usize;
    let mut input = Vec::with_capacity(alloc, count + 1)?;
    let mut wrong = Vec::with_capacity(alloc, count + 1)?;
    if !guess(pattern, steps, words, &mut input, &mut wrong)? {
        return Ok(None);
    }
    peel(pattern, input.as_mut_slice(), wrong.as_mut_slice());
    if input.len() < count {
        return Ok(None);
    }
    match wrong_if_nearest(pattern, steps, words, &input) {
        Some(distance) => Ok(Some(PackedInput {
            words: input,
            distance,
        })),
        None => Ok(None),
    }
}

/// Decodes a punctured codeword of which no place is erased as [`decode_sparse_words`] does, with the input as a list of bits.
/// It takes one octet more for each of them.
///
/// IEEE Std 802.11-2012, clauses 18.3.5.6 and 20.3.11.6.
pub fn decode_sparse(
    alloc: Global,
    steps: u32,
    pattern: Pattern,
    words: &[u64],
) -> Result<Option<Codeword>, AllocError>
    requires least { tail ≤ steps }
    requires most { steps ≤ 524302 }
    requires places { sent_count pattern steps ≤ 60 * length words.now }
    ensures { IfOk result (λ answer. IfSome answer (λ c.
        IsFound place_cost steps pattern (packed words.now (sent_count pattern steps)) c.input c.distance)) }
{
    match decode_sparse_words(alloc, steps, pattern, words)? {
        Some(found) => {
            let bits = unpacked_bits(alloc, steps, pattern, &found.words)?;
            Ok(Some(Codeword {
                input: Bits::from(bits),
                distance: found.distance,
            }))
        }
        None => Ok(None),
    }
}

/// Decodes a punctured codeword of which no place is erased, as [`decode_packed`] does and from the same words, with the input
/// in words: by the guess of [`decode_sparse_words`] where its wrong places lie far enough apart, else by the trellis.
///
/// IEEE Std 802.11-2012, clauses 18.3.5.6 and 20.3.11.6.
pub fn decode_words(
    alloc: Global,
    steps: u32,
    pattern: Pattern,
    words: &[u64],
) -> Result<PackedInput, AllocError>
    requires least { tail ≤ steps }
    requires most { steps ≤ 524302 }
    requires places { sent_count pattern steps ≤ 60 * length words.now }
    ensures found { IfOk result (λ p.
        IsFound place_cost steps pattern (packed words.now (sent_count pattern steps)) (unpacked pattern p.words.items steps) p.distance) }
    ensures whole { IfOk result (λ p. steps ≤ word_steps pattern * length p.words.items) }
{
    match decode_sparse_words(alloc, steps, pattern, words)? {
        Some(found) => Ok(found),
        None => {
            let codeword = decode_packed(alloc, steps, pattern, words)?;
            PackedInput::of(alloc, pattern, &codeword)
        }
    }
}
