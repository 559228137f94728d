//! The head of a frame, as a receiver has it.

use ht_clause18::LegacyRate;

/// The head of a clause 18 frame in a capture.
#[derive(Clone, Copy, Debug, PartialEq, Eq)]
pub struct LegacyFrameHead {
    /// The frame's number in the capture, counted from 0.
    pub frame: u16,
    /// Its rate.
    pub rate: LegacyRate,
    /// The octets of its PSDU, 1 to 4095.
    pub length: u16,
}
