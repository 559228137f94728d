//! What a frame comes to by soft decisions.
use ht_inverse::Outcome;

/// The result of a frame that was received whole.
#[derive(Debug, Drop)]
pub struct SoftResult {
    /// The frame's number in the capture, counted from 0.
    pub frame: u16,
    /// What the coded bits of the answer cost: the sum of the sizes of the weights that speak against them, in the codewords
    /// of all encoders together.
    pub cost: u128,
    /// The octets of the frame, or that its seed would be zero.
    pub outcome: Outcome,
}
