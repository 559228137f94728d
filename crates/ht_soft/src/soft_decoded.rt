//! What decoding from weights answers.

use ht_inverse::Outcome;

/// A frame decoded from weights.
#[derive(Debug, Drop)]
pub struct SoftDecoded {
    /// Its octets, or that its seed would be zero.
    pub outcome: Outcome,
    /// What the coded bits of the answer cost: the sum of the sizes of the weights that speak against them, in the codewords
    /// of all encoders together.
    pub cost: u128,
}
