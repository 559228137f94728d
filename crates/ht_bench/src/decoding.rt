//! Decoding of a codeword that came with some places wrong.
use crate::random::Random;
use crate::sums::folded;
use ht_conv::{encode, sent};
use ht_rate::Pattern;
use ht_soft::soft_decode;
use ht_viterbi::{Cheapest, Codeword, decode, plain_decode};
use std::alloc::{AllocError, Global};

/// Which decoder is run.
#[derive(Clone, Copy)]
enum DecoderKind {
    Fast,
    Plain,
    Soft,
}

/// A codeword's form, how many of a hundred places are wrong, and how often it is decoded.
#[derive(Drop)]
pub struct Line {
    decoder: DecoderKind,
    pattern: Pattern,
    steps: u32,
    percent: u64,
    count: u32,
}

impl Line {
    /// The line that the words choose.
    pub fn from_words(words: &[String]) -> Option<Line> {
        let [decoder, pattern, steps, percent, count] = words else {
            return None;
        };
        let decoder = match decoder.as_str() {
            "decode" => DecoderKind::Fast,
            "plain_decode" => DecoderKind::Plain,
            "soft_decode" => DecoderKind::Soft,
            _ => return None,
        };
        let pattern = match pattern.as_str() {
            "half" => Pattern::Half,
            "two_thirds" => Pattern::TwoThirds,
            "three_quarters" => Pattern::ThreeQuarters,
            "five_sixths" => Pattern::FiveSixths,
            _ => return None,
        };
        Some(Line {
            decoder,
            pattern,
            steps: steps.as_str().parse().ok()?,
            percent: percent.as_str().parse().ok()?,
            count: count.as_str().parse().ok()?,
        })
    }

    /// Decodes the codeword as often as the line says. The checksum is over the last answer and all costs.
    pub fn run(&self, alloc: Global) -> Result<u64, AllocError> {
        let received = self.received(alloc)?;
        let weights = weights_of(alloc, &received)?;
        let mut checksum = 0u64;
        for left in (0..self.count).rev() {
            let answer = self.decoded(alloc, &received, &weights)?;
            checksum = checksum.wrapping_add(answer.cost);
            if left == 0 {
                checksum = with_bits(checksum, answer.input.as_slice());
            }
        }
        Ok(checksum)
    }

    // What is received: random input, encoded, and with wrong places.
    fn received(&self, alloc: Global) -> Result<Vec<Option<bool>>, AllocError> {
        let mut random = Random::new(1);
        let mut input = Vec::new(alloc);
        let free = self.steps.saturating_sub(6);
        for step in 0..self.steps {
            let bit = random.draw() & 1 == 1;
            input.push(bit && step < free)?;
        }
        let mut received = Vec::new(alloc);
        for bit in &encode(alloc, &input, self.pattern)? {
            let wrong = random.draw() % 100 < self.percent;
            received.push(Some(*bit != wrong))?;
        }
        Ok(received)
    }

    // One decoding. A length that no codeword has is not decoded.
    fn decoded(
        &self,
        alloc: Global,
        received: &[Option<bool>],
        weights: &[i32],
    ) -> Result<Cheapest, AllocError> {
        let (steps, pattern) = (self.steps, self.pattern);
        let count = sent(pattern, steps);
        if steps < 6
            || steps > 524_302
            || received.len() as u64 != count
            || weights.len() as u64 != count
        {
            return Err(AllocError);
        }
        match self.decoder {
            DecoderKind::Fast => Ok(counted(decode(alloc, steps, pattern, received)?)),
            DecoderKind::Plain => Ok(counted(plain_decode(alloc, steps, pattern, received)?)),
            DecoderKind::Soft => soft_decode(alloc, steps, pattern, weights),
        }
    }
}

// An answer whose cost is its distance.
fn counted(codeword: Codeword) -> Cheapest {
    Cheapest {
        input: codeword.input,
        cost: u64::from(codeword.distance),
    }
}

// Weights of random size, positive where a 1 was received.
fn weights_of(alloc: Global, received: &[Option<bool>]) -> Result<Vec<i32>, AllocError> {
    let mut random = Random::new(2);
    let mut weights = Vec::new(alloc);
    for place in received {
        let size = (random.draw() % 65536) as i32;
        weights.push(match place {
            Some(true) => size,
            Some(false) => -size,
            None => 0,
        })?;
    }
    Ok(weights)
}

// A checksum that depends on each bit and its place.
fn with_bits(start: u64, bits: &[bool]) -> u64 {
    bits.iter()
        .fold(start, |sum, bit| folded(sum, u64::from(*bit)))
}
