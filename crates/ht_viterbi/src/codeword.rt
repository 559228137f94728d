//! What the decoders answer.

use ht_bits::Bits;

/// The answer to hard decisions.
#[derive(Drop)]
pub struct Codeword {
    /// The encoder's input, its tail of six zeros included.
    pub input: Bits,
    /// At how many places that aren't erased the coded bits of the input differ from what was received.
    pub distance: u32,
}

/// The answer to any places.
#[derive(Drop)]
pub struct Cheapest {
    /// The encoder's input, its tail of six zeros included.
    pub input: Bits,
    /// What the coded bits of the input cost at the places together.
    pub cost: u64,
}
