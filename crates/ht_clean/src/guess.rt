//! A guess of the input by a feed-forward inverse of the code: each input bit is a sum of received places of its step and
//! of at most 26 steps before it, so that a wrong place misleads only a few of them.
//!
//! Nothing is proved of the guess: the check judges it.
ghost use Rattle.std.specs.Prelude.{◌≡◌, ◌+◌, ◌*◌, ◌^◌, ◌<◌, ◌≤◌, IfOk};
ghost use Rattle.ht_viterbi.specs.Packed.{word_steps};

use crate::layout::steps_of_word;
use crate::planes::{Planes, low_bits, wrong_places};
use ht_conv::sent;
use ht_rate::Pattern;
use ht_viterbi::WORD_PLACES;
use std::alloc::{AllocError, Global};

// For the places of a turn, the first one lowest, what they add to the input of its steps, the first one lowest, and of
// those behind it. Where a turn has four places, the two behind them add nothing.
static HALF: [u32; 64] = [
    0, 0x14, 0x1f, 0xb, 0x28, 0x3c, 0x37, 0x23, 0x3e, 0x2a, 0x21, 0x35, 0x16, 0x2, 0x9, 0x1d, 0x50,
    0x44, 0x4f, 0x5b, 0x78, 0x6c, 0x67, 0x73, 0x6e, 0x7a, 0x71, 0x65, 0x46, 0x52, 0x59, 0x4d, 0x7c,
    0x68, 0x63, 0x77, 0x54, 0x40, 0x4b, 0x5f, 0x42, 0x56, 0x5d, 0x49, 0x6a, 0x7e, 0x75, 0x61, 0x2c,
    0x38, 0x33, 0x27, 0x4, 0x10, 0x1b, 0xf, 0x12, 0x6, 0xd, 0x19, 0x3a, 0x2e, 0x25, 0x31,
];

static TWO_THIRDS: [u32; 64] = [
    0, 0x4c5, 0x5b8, 0x17d, 0x49a, 0x5f, 0x122, 0x5e7, 0x1314, 0x17d1, 0x16ac, 0x1269, 0x178e,
    0x134b, 0x1236, 0x16f3, 0x16e0, 0x1225, 0x1358, 0x179d, 0x127a, 0x16bf, 0x17c2, 0x1307, 0x5f4,
    0x131, 0x4c, 0x489, 0x16e, 0x5ab, 0x4d6, 0x13, 0x1268, 0x16ad, 0x17d0, 0x1315, 0x16f2, 0x1237,
    0x134a, 0x178f, 0x17c, 0x5b9, 0x4c4, 0x1, 0x5e6, 0x123, 0x5e, 0x49b, 0x488, 0x4d, 0x130, 0x5f5,
    0x12, 0x4d7, 0x5aa, 0x16f, 0x179c, 0x1359, 0x1224, 0x16e1, 0x1306, 0x17c3, 0x16be, 0x127b,
];

static THREE_QUARTERS: [u32; 64] = [
    0, 0xae3e, 0xacdb, 0x2e5, 0xb916, 0x1728, 0x15cd, 0xbbf3, 0xac8c, 0x2b2, 0x57, 0xae69, 0x159a,
    0xbba4, 0xb941, 0x177f, 0, 0xae3e, 0xacdb, 0x2e5, 0xb916, 0x1728, 0x15cd, 0xbbf3, 0xac8c,
    0x2b2, 0x57, 0xae69, 0x159a, 0xbba4, 0xb941, 0x177f, 0, 0xae3e, 0xacdb, 0x2e5, 0xb916, 0x1728,
    0x15cd, 0xbbf3, 0xac8c, 0x2b2, 0x57, 0xae69, 0x159a, 0xbba4, 0xb941, 0x177f, 0, 0xae3e, 0xacdb,
    0x2e5, 0xb916, 0x1728, 0x15cd, 0xbbf3, 0xac8c, 0x2b2, 0x57, 0xae69, 0x159a, 0xbba4, 0xb941,
    0x177f,
];

static FIVE_SIXTHS: [u32; 64] = [
    0, 0x6fc_c8d4, 0x6ca_9c59, 0x36_548d, 0x6cb_2efe, 0x37_e62a, 0x1_b2a7, 0x6fd_7a73, 0x6fc_c8d4,
    0, 0x36_548d, 0x6ca_9c59, 0x37_e62a, 0x6cb_2efe, 0x6fd_7a73, 0x1_b2a7, 0x36_5918, 0x6ca_91cc,
    0x6fc_c541, 0xd95, 0x6fd_77e6, 0x1_bf32, 0x37_ebbf, 0x6cb_236b, 0x6ca_91cc, 0x36_5918, 0xd95,
    0x6fc_c541, 0x1_bf32, 0x6fd_77e6, 0x6cb_236b, 0x37_ebbf, 0x6fd_7a70, 0x1_b2a4, 0x37_e629,
    0x6cb_2efd, 0x36_548e, 0x6ca_9c5a, 0x6fc_c8d7, 0x3, 0x1_b2a4, 0x6fd_7a70, 0x6cb_2efd,
    0x37_e629, 0x6ca_9c5a, 0x36_548e, 0x3, 0x6fc_c8d7, 0x6cb_2368, 0x37_ebbc, 0x1_bf31, 0x6fd_77e5,
    0xd96, 0x6fc_c542, 0x6ca_91cf, 0x36_591b, 0x37_ebbc, 0x6cb_2368, 0x6fd_77e5, 0x1_bf31,
    0x6fc_c542, 0xd96, 0x36_591b, 0x6ca_91cf,
];

// The table of a pattern.
#[inline(always)]
fn sums_of(pattern: Pattern) -> &'static [u32; 64] {
    match pattern {
        Pattern::Half => &HALF,
        Pattern::TwoThirds => &TWO_THIRDS,
        Pattern::ThreeQuarters => &THREE_QUARTERS,
        Pattern::FiveSixths => &FIVE_SIXTHS,
    }
}

// The number of steps of a turn.
#[inline(always)]
fn steps_of_turn(pattern: Pattern) -> u32
    ensures least { 3 ≤ result }
    ensures most { result ≤ 5 }
{
    match pattern {
        Pattern::Half | Pattern::ThreeQuarters => 3,
        Pattern::TwoThirds => 4,
        Pattern::FiveSixths => 5,
    }
}

// The number of its places.
#[inline(always)]
fn places_of_turn(pattern: Pattern) -> u32
    ensures { result ≤ 6 }
{
    match pattern {
        Pattern::ThreeQuarters => 4,
        _ => 6,
    }
}

// The number of turns of a word.
#[inline(always)]
fn turns_of_word(pattern: Pattern) -> u32
    ensures { result ≤ 15 }
{
    match pattern {
        Pattern::ThreeQuarters => 15,
        _ => 10,
    }
}

// The input of a word. `ahead` is what the places before it add to it, and then what is added to the next one.
#[inline(always)]
fn guessed_word(pattern: Pattern, word: u64, ahead: &mut u64) -> u64
    ensures { result < 2 ^ word_steps pattern }
{
    let sums = sums_of(pattern);
    let steps = steps_of_turn(pattern);
    let places = places_of_turn(pattern);
    let width = steps_of_word(pattern);
    let mut rest = word;
    let mut sum = *ahead;
    let mut input = 0u64;
    for _ in 0..turns_of_word(pattern) {
        sum ^= u64::from(sums[(rest & 63) as usize]);
        input = input >> steps | sum << (64 - steps);
        sum >>= steps;
        rest >>= places;
    }
    *ahead = sum;
    low_bits(input >> (64 - width), width)
}

// A received word, with zeros behind the last place, as an encoder sends them after its tail.
#[inline(always)]
fn received_word(words: &[u64], count: usize, at: usize) -> u64
    requires { at ≤ 2 ^ 20 }
{
    if at < words.len() {
        let left = count.saturating_sub(WORD_PLACES * at);
        if left < WORD_PLACES {
            low_bits(words[at], left as u32)
        } else {
            words[at]
        }
    } else {
        0
    }
}

// How many steps may have a wrong bit before it is no longer worth while to go on.
const SLACK: u32 = 64;

// Guesses the input of all words and of one more.
#[inline(always)]
fn guess_all(
    pattern: Pattern,
    steps: u32,
    words: &[u64],
    input: &mut Vec<u64>,
    wrong: &mut Vec<Planes>,
) -> Result<bool, AllocError>
    requires { steps ≤ 524302 }
{
    let width = steps_of_word(pattern);
    let count = sent(pattern, steps) as usize;
    let mut ahead = 0u64;
    let mut previous = 0u64;
    let mut dirty = 0u32;
    for at in 0..steps.div_ceil(width) + 1 {
        let word = received_word(words, count, at as usize);
        let current = guessed_word(pattern, word, &mut ahead);
        let places = wrong_places(pattern, word, current, previous, width);
        dirty = dirty.saturating_add((places.a | places.b).count_ones());
        if dirty > SLACK + 2 * at {
            return Ok(false);
        }
        input.push(current)?;
        wrong.push(places)?;
        previous = current;
    }
    Ok(true)
}

/// Guesses the input of all words and of one more, and says where the coded bits of the guess are wrong. It is false, and the
/// lists end early, where so many are that the check would refuse it in all likelihood.
///
/// Each pattern has its own loop, in which a word's layout is known.
pub(crate) fn guess(
    pattern: Pattern,
    steps: u32,
    words: &[u64],
    input: &mut Vec<u64>,
    wrong: &mut Vec<Planes>,
) -> Result<bool, AllocError>
    requires { steps ≤ 524302 }
{
    match pattern {
        Pattern::Half => guess_all(Pattern::Half, steps, words, input, wrong),
        Pattern::TwoThirds => guess_all(Pattern::TwoThirds, steps, words, input, wrong),
        Pattern::ThreeQuarters => guess_all(Pattern::ThreeQuarters, steps, words, input, wrong),
        Pattern::FiveSixths => guess_all(Pattern::FiveSixths, steps, words, input, wrong),
    }
}
