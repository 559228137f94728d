//! From octets to coded bits (IEEE Std 802.11-2012, clauses 18.3.5.2 to 18.3.5.6).
ghost use Rattle.std.specs.Prelude.{◌≡◌, IfOk};
ghost use Rattle.ht_clause18.specs.Coded.{coder_input, coded_of};

use crate::frames::LegacyFrame;
use ht_conv::encode;
use ht_data::scrambled_data;
use std::alloc::{AllocError, Global};

/// The tail bits, which bring the encoder back to the state of zeros.
const TAIL: usize = 6;

// The DATA bits of a frame, scrambled, with zeros again in the places of the tail bits.
#[tactic(auto, unfolding(crate::specs::Coded::coder_input, crate::specs::Coded::data_of))]
fn encoder_input(alloc: Global, frame: &LegacyFrame) -> Result<Vec<bool>, AllocError>
    ensures { IfOk result (λ bits. bits.items ≡ coder_input frame.now) }
{
    let octets = frame.octets();
    let pads = frame.rate().pads(octets.len() as u16) as usize;
    scrambled_data(alloc, octets, frame.seed(), TAIL, pads)
}

/// The coded bits of a frame, N_CBPS for each symbol.
///
/// The only refusal is lack of memory.
#[tactic(auto, unfolding(crate::specs::Coded::coded_of))]
pub(crate) fn coded_bits(alloc: Global, frame: &LegacyFrame) -> Result<Vec<bool>, AllocError>
    ensures { IfOk result (λ bits. bits.items ≡ coded_of frame.now) }
{
    let bits = encoder_input(alloc, frame)?;
    encode(alloc, bits.as_slice(), frame.rate().pattern())
}
