//! From the inputs of the encoders, in words, to octets.
ghost use Rattle.std.specs.Prelude.{◌≡◌, ◌+◌, ◌*◌, ◌^◌, ◌<◌, ◌≤◌, ℕ, IfOk, false, true, drop};
ghost use Rattle.std.specs.Bool.{xor};
ghost use Rattle.ht_bits.specs.Bits.{octets_of};
ghost use Rattle.ht_scramble.specs.Sequence.{scrambled, seed_of, sequence};
ghost use Rattle.ht_viterbi.specs.Packed.{flag};
ghost use Rattle.ht_inverse.specs.Decoding.{outcome_of};
ghost use Rattle.ht_inverse.specs.Words.{HasSequence, Hold, first_bits, word_bit, word_bits};

use crate::octets::Octets;
use crate::outcome::Outcome;
use ht_clean::eight_bits;
use ht_rate::Pattern;
use std::alloc::{AllocError, Global};

// The lowest four bits of two octets in turns, the first octet's first.
#[inline(always)]
fn in_turns(first: u8, second: u8) -> u8
    ensures { (k : ℕ) → k < 4 → (flag result (2 * k) ≡ flag first k) × (flag result (2 * k + 1) ≡ flag second k) }
{
    let nibbles = u32::from(first & 15) | u32::from(second & 15) << 8;
    let pairs = (nibbles | nibbles << 2) & 0x3333;
    let apart = (pairs | pairs << 1) & 0x5555;
    ((apart | apart >> 7) & 0xff) as u8
}

// Eight bits of the inputs, those of octet `at` of SERVICE and the octets.
#[inline(always)]
fn octet_at(pattern: Pattern, two: bool, first: &[u64], second: &[u64], octets: u32, at: u32) -> u8
    requires few { octets ≤ 65535 }
    requires at { at < octets + 2 }
    requires hold { Hold pattern two first.now second.now octets }
    ensures { (k : ℕ) → k < 8 → flag result k ≡ word_bit pattern two first.now second.now (8 * at + k) }
{
    if two {
        in_turns(
            eight_bits(pattern, first, 4 * at),
            eight_bits(pattern, second, 4 * at),
        )
    } else {
        eight_bits(pattern, first, 8 * at)
    }
}

// The first two octets of the scrambling sequence that begins with seven bits: s(t) = s(t - 7) xor s(t - 4).
fn sequence_from(seven: u8) -> (u8, u8)
    requires { seven < 128 }
    ensures first { HasSequence (seed_of (first_bits seven)) 0 result.0 }
    ensures second { HasSequence (seed_of (first_bits seven)) 8 result.1 }
{
    let seven = u32::from(seven);
    let eleven = seven | ((seven ^ seven >> 3) & 15) << 7;
    let fifteen = eleven | ((eleven >> 4 ^ eleven >> 7) & 15) << 11;
    let sixteen = fifteen | ((fifteen >> 8 ^ fifteen >> 11) & 1) << 15;
    ((sixteen & 0xff) as u8, (sixteen >> 8 & 0xff) as u8)
}

// The next octet of the sequence behind two of them: s(t) = s(t - 14) xor s(t - 8).
#[inline(always)]
fn sequence_next(before: u8, last: u8) -> u8
    ensures { (seed t : ℕ) → HasSequence seed t before → HasSequence seed (t + 8) last → HasSequence seed (t + 16) result }
{
    (before >> 2 | last << 6) ^ last
}

// Eight bits with those of the sequence added, modulo 2.
#[inline(always)]
fn added(octet: u8, sequence: u8) -> u8
    ensures bits { (k : ℕ) → flag result k ≡ xor (flag octet k) (flag sequence k) }
    ensures bound { result < 256 }
{
    octet ^ sequence
}

// The octets behind SERVICE, descrambled.
#[inline(always)]
fn octets_by(
    alloc: Global,
    pattern: Pattern,
    two: bool,
    first: &[u64],
    second: &[u64],
    octets: u32,
    seven: u8,
) -> Result<Vec<u8>, AllocError>
    requires few { octets ≤ 65535 }
    requires hold { Hold pattern two first.now second.now octets }
    requires seven { seven < 128 }
    ensures { IfOk result (λ found. found.items ≡ octets_of (drop 16
        (scrambled (seed_of (first_bits seven)) (word_bits pattern two first.now second.now (16 + 8 * octets))))) }
{
    let mut found = Vec::with_capacity(alloc, octets as usize)?;
    let (mut before, mut last) = sequence_from(seven);
    for at in 0..octets {
        let mask = sequence_next(before, last);
        let octet = octet_at(pattern, two, first, second, octets, at + 2);
        found.push_reserved(added(octet, mask));
        before = last;
        last = mask;
    }
    Ok(found)
}

// The same by the pattern's own loop, in which a word's steps are known.
fn octets_of_words(
    alloc: Global,
    pattern: Pattern,
    two: bool,
    first: &[u64],
    second: &[u64],
    octets: u32,
    seven: u8,
) -> Result<Vec<u8>, AllocError>
    requires few { octets ≤ 65535 }
    requires hold { Hold pattern two first.now second.now octets }
    requires seven { seven < 128 }
    ensures { IfOk result (λ found. found.items ≡ octets_of (drop 16
        (scrambled (seed_of (first_bits seven)) (word_bits pattern two first.now second.now (16 + 8 * octets))))) }
{
    match pattern {
        Pattern::Half => octets_by(alloc, Pattern::Half, two, first, second, octets, seven),
        Pattern::TwoThirds => {
            octets_by(alloc, Pattern::TwoThirds, two, first, second, octets, seven)
        }
        Pattern::ThreeQuarters => {
            octets_by(
                alloc,
                Pattern::ThreeQuarters,
                two,
                first,
                second,
                octets,
                seven,
            )
        }
        Pattern::FiveSixths => {
            octets_by(
                alloc,
                Pattern::FiveSixths,
                two,
                first,
                second,
                octets,
                seven,
            )
        }
    }
}

/// What the inputs of one encoder, or of two, come to.
pub(crate) fn words_come_to(
    alloc: Global,
    pattern: Pattern,
    two: bool,
    first: &[u64],
    second: &[u64],
    octets: u32,
) -> Result<Outcome, AllocError>
    requires few { octets ≤ 65535 }
    requires hold { Hold pattern two first.now second.now octets }
    ensures { IfOk result (λ outcome. outcome ≡ outcome_of (word_bits pattern two first.now second.now (16 + 8 * octets))) }
{
    let seven = octet_at(pattern, two, first, second, octets, 0) & 0x7f;
    if seven == 0 {
        return Ok(Outcome::SeedZero);
    }
    let found = octets_of_words(alloc, pattern, two, first, second, octets, seven)?;
    Ok(Outcome::Octets(Octets::from(found)))
}

/// What the input of a frame's only encoder comes to: the 16 bits of SERVICE, and eight of each octet. The words hold it as
/// [`PackedInput`](ht_clean::PackedInput) does. The only refusal is lack of memory.
///
/// IEEE Std 802.11-2012, clauses 18.3.5.2 and 18.3.5.5.
pub fn input_comes_to(
    alloc: Global,
    pattern: Pattern,
    words: &[u64],
    octets: u16,
) -> Result<Outcome, AllocError>
    requires { Hold pattern false words.now words.now octets }
    ensures { IfOk result (λ outcome. outcome ≡ outcome_of (word_bits pattern false words.now words.now (16 + 8 * octets))) }
{
    words_come_to(alloc, pattern, false, words, words, u32::from(octets))
}
