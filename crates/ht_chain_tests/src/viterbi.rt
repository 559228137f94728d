//! Worked words, and all inputs of short words tried in turn. Each call has ample memory.
ghost use Rattle.std.specs.Prelude.{◌<◌, length};

use crate::equal::equal;
use ht_conv::{Kept, encode, kept_at, sent};
use ht_rate::Pattern;
use ht_viterbi::{Cheapest, Codeword, decode, decode_places, decode_weights, plain_decode};
use std::alloc::{AllocError, Global};
use std::test::Fail;

const PATTERNS: [Pattern; 4] = [
    Pattern::Half,
    Pattern::TwoThirds,
    Pattern::ThreeQuarters,
    Pattern::FiveSixths,
];

// The delays that the generators tap: 133 and 171 in octal.
const TAPS_A: [usize; 5] = [0, 2, 3, 5, 6];

const TAPS_B: [usize; 5] = [0, 1, 2, 3, 6];

// What a decoder answers. A word of another length than asked for is an error.
fn answer(
    alloc: Global,
    is_plain: bool,
    steps: u32,
    pattern: Pattern,
    received: &[Option<bool>],
) -> Result<Codeword, AllocError> {
    if steps < 6 || steps > 524_302 || received.len() as u64 != sent(pattern, steps) {
        return Err(AllocError);
    }
    if is_plain {
        plain_decode(alloc, steps, pattern, received)
    } else {
        decode(alloc, steps, pattern, received)
    }
}

// Places as they are written: 0, 1, and x for an erased one; blanks are left out.
fn places(alloc: Global, text: &str) -> Result<Vec<Option<bool>>, AllocError> {
    let mut places = Vec::new(alloc);
    for c in text.chars() {
        match c {
            '0' => places.push(Some(false))?,
            '1' => places.push(Some(true))?,
            'x' => places.push(None)?,
            _ => {}
        }
    }
    Ok(places)
}

// Bits as they are written.
fn bits(alloc: Global, text: &str) -> Result<Vec<bool>, AllocError> {
    text.chars().map(|c| c == '1').collect(alloc)
}

#[test]
fn vectors(rt: HostRuntime) -> Result<(), Fail> {
    let table = [
        // 1000000 is at 5 too, and later.
        (7, "11 01 11 00 00 00 00", "0000000", 5),
        (7, "11 01 11 10 00 00 00", "1000000", 4),
        (7, "xx xx xx xx xx xx xx", "0000000", 0),
        (6, "11 11 11 11 11 11", "000000", 12),
    ];
    for (steps, received, input, distance) in table {
        let received = places(rt.alloc(), received)?;
        for is_plain in [false, true] {
            let codeword = answer(rt.alloc(), is_plain, steps, Pattern::Half, &received)?;
            let wanted = bits(rt.alloc(), input)?;
            let answer = (codeword.input.as_slice(), codeword.distance);
            equal(&rt, answer, (wanted.as_slice(), distance));
        }
    }
    Ok(())
}

// Words that are as they were sent but for a place, or but for the tail.
#[test]
fn nearly_clean(rt: HostRuntime) -> Result<(), Fail> {
    let table = [
        (Pattern::Half, "11 01 11 11 00 10 11", "1000000", 0),
        (Pattern::Half, "01 01 11 11 00 10 11", "1000000", 1),
        (Pattern::Half, "11 01 11 11 00 10 10", "1000000", 1),
        (Pattern::Half, "11 01 11 11 00 10 1x", "1000000", 0),
        // What 1000001 sends, whose last six bits aren't all 0.
        (Pattern::Half, "11 01 11 11 00 10 00", "1000000", 2),
        (Pattern::ThreeQuarters, "1101 1100 11", "1000000", 0),
        (Pattern::ThreeQuarters, "1101 1100 10", "1000000", 1),
        (Pattern::ThreeQuarters, "x101 1100 11", "1000000", 0),
    ];
    for (pattern, received, input, distance) in table {
        let received = places(rt.alloc(), received)?;
        for is_plain in [false, true] {
            let codeword = answer(rt.alloc(), is_plain, 7, pattern, &received)?;
            let wanted = bits(rt.alloc(), input)?;
            let answer = (codeword.input.as_slice(), codeword.distance);
            equal(&rt, answer, (wanted.as_slice(), distance));
        }
    }
    Ok(())
}

// What both decoders of weights answer, the plain one last. A word of another length than asked for is an error.
fn cheapest(
    alloc: Global,
    steps: u32,
    pattern: Pattern,
    weights: &[i32],
) -> Result<[Cheapest; 2], AllocError> {
    if steps < 6 || steps > 524_302 || weights.len() as u64 != sent(pattern, steps) {
        return Err(AllocError);
    }
    let fast = decode_weights(alloc, steps, pattern, weights)?;
    Ok([fast, decode_places(alloc, steps, pattern, weights)?])
}

#[test]
fn weights(rt: HostRuntime) -> Result<(), Fail> {
    let doubtful = [9, 9, -1, 9, 9, 9, -1, -1, -1, -1, -1, -1, -1, -1];
    let mut lost = doubtful;
    for place in [0, 1, 3, 4] {
        lost[place] = 0;
    }
    let table: [(&[i32], &str, u64); 7] = [
        (&doubtful, "1000000", 5),
        // Now 0000000 costs 9, and 1000000 still 5.
        (&lost, "1000000", 5),
        (&[0; 14], "0000000", 0),
        (&[65_535; 14], "1000000", 4 * 65_535),
        (&[65_536; 14], "1000000", 4 * 65_536),
        (&[i32::MIN; 14], "0000000", 0),
        (&[i32::MAX; 14], "1000000", 4 * 2_147_483_647),
    ];
    for (weights, input, cost) in table {
        let wanted = bits(rt.alloc(), input)?;
        for found in &cheapest(rt.alloc(), 7, Pattern::Half, weights)? {
            let answer = (found.input.as_slice(), found.cost);
            equal(&rt, answer, (wanted.as_slice(), cost));
        }
    }
    Ok(())
}

// A generator's bit: the sum of the input bits that it taps.
fn coded_bit(input: &[bool], step: usize, taps: [usize; 5]) -> bool
    requires { step < length input.now }
{
    let mut sum = false;
    for delay in taps {
        if delay <= step && input[step - delay] {
            sum = !sum;
        }
    }
    sum
}

// At how many places that aren't erased the coded bits of an input differ.
fn distance_of(input: &[bool], pattern: Pattern, received: &[Option<bool>]) -> u32 {
    let mut places = received.iter().copied();
    let mut distance = 0u32;
    for step in 0..input.len() {
        let (a, b) = (
            coded_bit(input, step, TAPS_A),
            coded_bit(input, step, TAPS_B),
        );
        let kept = kept_at(pattern, (step % 30) as u32);
        for (bit, other) in [(a, Kept::B), (b, Kept::A)] {
            if kept != other && places.next().flatten() == Some(!bit) {
                distance = distance.saturating_add(1);
            }
        }
    }
    distance
}

// The next state of a generator, whose top bits are random.
fn next(state: u64) -> u64 {
    state
        .wrapping_mul(6_364_136_223_846_793_005)
        .wrapping_add(1_442_695_040_888_963_407)
}

// A word of places at random: the generator's top bits choose 0, 1 or, at one place of `rare`, an erasure.
fn random_places(
    alloc: Global,
    count: usize,
    seed: u64,
    rare: u64,
) -> Result<Vec<Option<bool>>, AllocError>
    requires { 0 < rare }
{
    let mut places = Vec::new(alloc);
    let mut state = seed;
    for place in 0..count {
        state = next(state ^ place as u64);
        let draw = state >> 40;
        places.push(if draw % rare == 0 {
            None
        } else {
            Some(draw >> 20 & 1 == 1)
        })?;
    }
    Ok(places)
}

// The first nearest input of eight free bits, with its distance, by trying all.
fn nearest(pattern: Pattern, received: &[Option<bool>]) -> ([bool; 14], u32) {
    let mut best = ([false; 14], u32::MAX);
    // The inputs in their order: the first bit is the highest one.
    for free in 0..256u32 {
        let mut input = [false; 14];
        for (place, bit) in input.iter_mut().take(8).enumerate() {
            *bit = free << place & 0x80 != 0;
        }
        let distance = distance_of(&input, pattern, received);
        if distance < best.1 {
            best = (input, distance);
        }
    }
    best
}

#[test]
fn ties(rt: HostRuntime) -> Result<(), Fail> {
    for seed in 0..100u64 {
        for pattern in PATTERNS {
            let count = sent(pattern, 14) as usize;
            let received = random_places(rt.alloc(), count, seed, 2 + seed % 5)?;
            let (input, distance) = nearest(pattern, &received);
            for is_plain in [false, true] {
                let codeword = answer(rt.alloc(), is_plain, 14, pattern, &received)?;
                let case = (seed, pattern, is_plain);
                let answer = (case, codeword.input.as_slice(), codeword.distance);
                equal(&rt, answer, (case, input.as_slice(), distance));
            }
        }
    }
    Ok(())
}

// A random terminated input, and what it sends with `percent` of a hundred places wrong.
fn sent_with_errors(
    alloc: Global,
    steps: u32,
    pattern: Pattern,
    percent: u64,
) -> Result<(Vec<bool>, Vec<Option<bool>>), AllocError> {
    let mut state = u64::from(steps);
    let free = steps.saturating_sub(6);
    let mut input = Vec::new(alloc);
    for step in 0..steps {
        state = next(state);
        input.push(state >> 33 & 1 == 1 && step < free)?;
    }
    let mut received = Vec::new(alloc);
    for bit in &encode(alloc, &input, pattern)? {
        state = next(state);
        received.push(Some(*bit != ((state >> 33) % 100 < percent)))?;
    }
    Ok((input, received))
}

#[test]
fn alike(rt: HostRuntime) -> Result<(), Fail> {
    for steps in [6, 7, 13, 62, 63, 64, 65, 66, 822, 12_006] {
        for pattern in PATTERNS {
            for percent in [0, 2, 5, 50] {
                let (input, received) = sent_with_errors(rt.alloc(), steps, pattern, percent)?;
                let fast = answer(rt.alloc(), false, steps, pattern, &received)?;
                let plain = answer(rt.alloc(), true, steps, pattern, &received)?;
                let found = plain.input.as_slice();
                let answer = (steps, fast.input.as_slice(), fast.distance);
                equal(&rt, answer, (steps, found, plain.distance));
                if percent == 0 {
                    equal(&rt, (steps, found), (steps, input.as_slice()));
                }
            }
        }
    }
    Ok(())
}

// The same places but for one, which is wrong or erased.
fn but_one(
    alloc: Global,
    places: &[Option<bool>],
    which: usize,
    is_erased: bool,
) -> Result<Vec<Option<bool>>, AllocError> {
    let mut changed = Vec::new(alloc);
    for (at, place) in places.iter().enumerate() {
        changed.push(match *place {
            Some(bit) if at == which && !is_erased => Some(!bit),
            Some(bit) if at != which => Some(bit),
            _ => None,
        })?;
    }
    Ok(changed)
}

// Each place of a clean word in turn is wrong, and is erased.
#[test]
fn one_place(rt: HostRuntime) -> Result<(), Fail> {
    for pattern in PATTERNS {
        let (_, clean) = sent_with_errors(rt.alloc(), 14, pattern, 0)?;
        for place in 0..clean.len() {
            for is_erased in [false, true] {
                let received = but_one(rt.alloc(), &clean, place, is_erased)?;
                let (input, distance) = nearest(pattern, &received);
                let codeword = answer(rt.alloc(), false, 14, pattern, &received)?;
                let case = (place, pattern, is_erased);
                let answer = (case, codeword.input.as_slice(), codeword.distance);
                equal(&rt, answer, (case, input.as_slice(), distance));
            }
        }
    }
    Ok(())
}

// Weights of random size: positive where a 1 was received, else negative, and the heaviest everywhere if `is_heaviest`.
fn random_weights(
    alloc: Global,
    received: &[Option<bool>],
    is_heaviest: bool,
) -> Result<Vec<i32>, AllocError> {
    let mut weights = Vec::new(alloc);
    let mut state = received.len() as u64;
    for place in received {
        state = next(state);
        let size = if is_heaviest {
            65_535
        } else {
            (state >> 48) as i32
        };
        weights.push(if *place == Some(true) { size } else { -size })?;
    }
    Ok(weights)
}

// With half of the places wrong and the heaviest weights everywhere all costs are lowered, since that of the answer is
// far above 2^30.
#[test]
fn weights_alike(rt: HostRuntime) -> Result<(), Fail> {
    for steps in [6, 7, 13, 822, 70_000] {
        for pattern in PATTERNS {
            for is_heaviest in [false, true] {
                let (_, received) = sent_with_errors(rt.alloc(), steps, pattern, 50)?;
                let weights = random_weights(rt.alloc(), &received, is_heaviest)?;
                let [fast, plain] = &cheapest(rt.alloc(), steps, pattern, &weights)?;
                let answer = (steps, fast.input.as_slice(), fast.cost);
                equal(&rt, answer, (steps, plain.input.as_slice(), plain.cost));
            }
        }
    }
    Ok(())
}

#[test]
fn erased(rt: HostRuntime) -> Result<(), Fail> {
    for steps in [6, 7, 822] {
        for pattern in PATTERNS {
            let received = Vec::from_elem(rt.alloc(), None, sent(pattern, steps) as usize)?;
            for is_plain in [false, true] {
                let codeword = answer(rt.alloc(), is_plain, steps, pattern, &received)?;
                let has_ones = codeword.input.as_slice().contains(&true);
                equal(&rt, (steps, codeword.distance, has_ones), (steps, 0, false));
            }
        }
    }
    Ok(())
}

#[test]
fn longest(rt: HostRuntime) -> Result<(), Fail> {
    let steps = 524_302;
    let (input, received) = sent_with_errors(rt.alloc(), steps, Pattern::Half, 1)?;
    let codeword = answer(rt.alloc(), false, steps, Pattern::Half, &received)?;
    equal(&rt, codeword.input.as_slice() == input.as_slice(), true);
    Ok(())
}
