//! Decoding of a frame's labels.
ghost use Rattle.std.specs.Prelude.{◌≡◌, ◌≤◌, IfOk, length};
ghost use Rattle.ht_inverse.specs.Received.{labels_in_frame};

use crate::random::Random;
use crate::sums::folded;
use ht_inverse::{Alone, Decoded, Decoder, Outcome};
use ht_rate::Rate;
use std::alloc::{AllocError, Global};

/// A frame's form, and how often its labels are decoded.
#[derive(Drop)]
pub struct Line {
    rate: Rate,
    octets: u16,
    count: u32,
}

impl Line {
    /// The line that the words choose.
    pub fn from_words(words: &[String]) -> Option<Line> {
        let [frame, bandwidth, mcs, octets, count] = words else {
            return None;
        };
        if frame.as_str() != "frame" {
            return None;
        }
        let rate = Rate::of(bandwidth.as_str().parse().ok()?, mcs.as_str().parse().ok()?).ok()?;
        Some(Line {
            rate,
            octets: octets.as_str().parse().ok()?,
            count: count.as_str().parse().ok()?,
        })
    }

    /// Decodes the labels as often as the line says. The checksum is over the last answer and all distances.
    pub fn run(&self, alloc: Global) -> Result<u64, AllocError> {
        let octets = self.octets.max(1);
        let labels = labels(alloc, &self.rate, octets)?;
        let mut decoder = Alone::new();
        let mut checksum = 0u64;
        for left in (0..self.count).rev() {
            let decoded = decoder.decode(alloc, &self.rate, octets, 0, &labels)?;
            checksum = checksum.wrapping_add(u64::from(decoded.code));
            if left == 0 {
                checksum = with_octets(checksum, &decoded);
            }
        }
        Ok(checksum)
    }
}

// Random labels of a frame, of six bits each; those that the rate does not use count for nothing.
fn labels(alloc: Global, rate: &Rate, octets: u16) -> Result<Vec<u8>, AllocError>
    requires { 1 ≤ octets }
    ensures { IfOk result (λ labels. length labels.items ≡ labels_in_frame rate.now octets) }
{
    let symbols = rate.symbols(octets) as usize;
    let count = symbols * (usize::from(rate.data_carriers()) * usize::from(rate.streams()));
    let mut labels = Vec::from_elem(alloc, 0u8, count)?;
    let mut random = Random::new(1);
    for label in labels.iter_mut() {
        *label = (random.draw() % 64) as u8;
    }
    Ok(labels)
}

// A checksum that depends on each octet and its place.
fn with_octets(start: u64, decoded: &Decoded) -> u64 {
    match &decoded.outcome {
        Outcome::Octets(octets) => octets
            .as_slice()
            .iter()
            .fold(start, |sum, octet| folded(sum, u64::from(*octet))),
        Outcome::SeedZero => start,
    }
}
