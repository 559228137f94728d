//! What the decoder of frames answers.

use crate::outcome::Outcome;

/// A decoded frame.
#[derive(Debug, Drop)]
pub struct Decoded {
    /// Its octets, or that its seed would be zero.
    pub outcome: Outcome,
    /// At how many places that aren't erased the coded bits of the answer differ from those of the labels, in the
    /// codewords of all encoders together.
    pub code: u32,
}
