//! From octets to the coded bits of the encoders.
ghost use Rattle.std.specs.Prelude.{◌≡◌, ◌≤◌, ◌++◌, IfOk};
ghost use Rattle.ht_conv.specs.Code.{sent_bits};
ghost use Rattle.ht_tx.specs.Coded.{coder_input, tail_of};
ghost use Rattle.ht_tx.specs.Sources.{AreCoded};

use crate::frames::Frame;
use ht_conv::encode;
use ht_data::scrambled_data;
use ht_parse::{Pair, split_encoders};
use ht_rate::Pattern;
use std::alloc::{AllocError, Global};

/// The tail bits of an encoder, which bring it back to the state of zeros.
const TAIL: usize = 6;

// The number of tail bits of all encoders.
fn tail_bits(frame: &Frame) -> usize
    ensures value { result ≡ tail_of frame.now }
    ensures few { result ≤ 12 }
{
    TAIL * usize::from(frame.rate().encoders())
}

// The DATA bits of a frame, scrambled, with zeros again in the places of the tail.
#[tactic(auto, unfolding(crate::specs::Coded::coder_input, crate::specs::Coded::data_of))]
fn encoders_input(alloc: Global, frame: &Frame) -> Result<Vec<bool>, AllocError>
    ensures { IfOk result (λ bits. bits.items ≡ coder_input frame.now) }
{
    let octets = frame.octets();
    let pads = frame.rate().pads(octets.len() as u16) as usize;
    scrambled_data(alloc, octets, frame.seed(), tail_bits(frame), pads)
}

// The coded bits of these inputs, those of encoder 0 first.
fn encoded(alloc: Global, inputs: &Pair, pattern: Pattern) -> Result<Vec<bool>, AllocError>
    ensures { IfOk result (λ bits. bits.items ≡ sent_bits pattern inputs.now.first ++ sent_bits pattern inputs.now.second) }
{
    let mut coded = encode(alloc, inputs.first.as_slice(), pattern)?;
    let second = encode(alloc, inputs.second.as_slice(), pattern)?;
    coded.extend_from_slice(second.as_slice())?;
    Ok(coded)
}

/// The coded bits of a frame, those of encoder 0 first.
///
/// The only refusal is lack of memory.
pub(crate) fn coded_bits(alloc: Global, frame: &Frame) -> Result<Vec<bool>, AllocError>
    ensures { IfOk result (λ bits. AreCoded frame.now bits.items) }
{
    let rate = frame.rate();
    let bits = encoders_input(alloc, frame)?;
    let inputs = split_encoders(alloc, &rate, bits.as_slice())?;
    encoded(alloc, &inputs, rate.pattern())
}
