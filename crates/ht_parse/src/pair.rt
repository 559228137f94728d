//! The lists of the encoders side by side.
use ht_bits::Bits;

/// The lists of bits of the encoders. With one encoder `second` is empty.
#[derive(Debug, Drop)]
pub struct Pair {
    /// Encoder 0.
    pub first: Bits,
    /// Encoder 1, where there is one.
    pub second: Bits,
}
